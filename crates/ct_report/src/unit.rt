ghost use Rattle.std.specs.Prelude.{◌≡◌, ◌++◌, IfOk};
ghost use Rattle.ct_report.specs.UnitText.{unit_text};

use crate::disk::push_disk;
use crate::journal::push_journal;
use ct_book::Book;
use ct_medium::Ram;
use ct_word::{LunNo, NoMemory};
use std::io::Write;

/// The text, and behind it what a logical unit did: its number, its events, and what is on its disk. At `NoMemory` the
/// text is let go.
#[tactic(auto, unfolding(crate::specs::UnitText::unit_text))]
pub fn push_unit(
    mut text: Vec<u8>,
    lun: LunNo,
    book: &Book,
    disk: &Ram,
) -> Result<Vec<u8>, NoMemory>
    ensures { IfOk result (λ whole. whole.items ≡ text.items ++ unit_text lun book.now.journal disk.now) }
{
    let LunNo(number) = lun;
    write!(&mut text, "lun {number}\n").map_err(|_| NoMemory)?;
    push_journal(&mut text, book)?;
    push_disk(&mut text, disk)?;
    Ok(text)
}
