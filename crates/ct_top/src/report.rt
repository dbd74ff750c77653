//! The report of what was played.

ghost use Rattle.std.specs.Prelude.{◌≡◌, IfOk};
ghost use Rattle.ct_top.specs.Report.{report_text};

use ct_book::Book;
use ct_medium::Ram;
use ct_report::push_unit;
use ct_word::{LunNo, NoMemory};
use std::alloc::Global;

/// What was played on one logical unit: its journal, and the disk that it left.
#[derive(Debug, Drop)]
pub struct UnitEnd {
    pub lun: LunNo,
    pub book: Book,
    pub disk: Ram,
}

/// The whole report: each unit in order.
#[tactic(auto, unfolding(crate::specs::Report::report_text))]
pub fn text(alloc: Global, ends: &[UnitEnd]) -> Result<Vec<u8>, NoMemory>
    ensures { IfOk result (λ text. text.items ≡ report_text ends.now) }
{
    let mut text = Vec::from_slice(alloc, b"report 1\n")?;
    for end in ends {
        text = push_unit(text, end.lun, &end.book, &end.disk)?;
    }
    text.extend_from_slice(b"done\n")?;
    Ok(text)
}
