//! The parameter list of MODE SELECT (SPC-4), for checks and for the change that it makes; the faults of all lists.

ghost use Rattle.std.specs.Prelude.{◌≡◌};
ghost use Rattle.ct_pages.specs.Selects.{selected_pages};
ghost use Rattle.ct_exec.specs.Modes.{is_long, mode_list, fault_of, list_fault};

use crate::action_faults::reserve_list;
use ct_cdb::{Form, Op};
use ct_pages::{ModePages, select_mode};
use ct_param::{ListFault, ModeList, read_mode, read_unmap};

/// The pages of the list in so many bytes of the data-out, or its first fault.
pub(crate) fn mode_list(form: Form, size: u16, out: &[u8]) -> Result<ModeList, ListFault>
    ensures { result ≡ mode_list form size out.now }
{
    read_mode(&out[..out.len().min(usize::from(size))], is_long(form))
}

fn is_long(form: Form) -> bool
    ensures { result ≡ is_long form }
{
    match form {
        Form::Six => false,
        Form::Ten | Form::Twelve | Form::Sixteen => true,
    }
}

/// The fault of a command's parameter list, where the mode pages have these values, on a disk of so many blocks.
pub(crate) fn list_fault(pages: ModePages, blocks: u32, out: &[u8], op: &Op) -> Option<ListFault>
    ensures { result ≡ list_fault pages blocks out.now op.now }
{
    match *op {
        Op::ModeSelect { form, list } => match mode_list(form, list, out) {
            Ok(list) => page_fault(pages, &list),
            Err(fault) => Some(fault),
        },
        Op::PersistentReserveOut { list, .. } => match reserve_list(list, out) {
            Ok(_) => None,
            Err(fault) => Some(fault),
        },
        Op::Unmap { list } => match read_unmap(&out[..out.len().min(usize::from(list))], blocks) {
            Ok(_) => None,
            Err(fault) => Some(fault),
        },
        _ => None,
    }
}

// The fault of a page that would change what can't be changed.
fn page_fault(pages: ModePages, list: &ModeList) -> Option<ListFault>
    ensures { result ≡ fault_of (selected_pages pages list.now) }
{
    let mut selected = pages;
    match select_mode(&mut selected, list) {
        Ok(()) => None,
        Err(fault) => Some(fault),
    }
}
