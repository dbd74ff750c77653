//! Rows of the commands about how a logical unit works (SPC-4, mode pages; SBC-3, START STOP UNIT).

ghost use Rattle.std.specs.Prelude.{◌≡◌};
ghost use Rattle.ct_cdb.specs.Commands.Modes.{start_stop_unit, mode_select, header_length, descriptor_length};
ghost use Rattle.ct_cdb.specs.Commands.Modes.{mode_length, mode_sense};

use super::{Class, Profile, still};
use crate::choices::ModePage;
use crate::op::{Form, SerIdx};

/// START STOP UNIT
pub(super) fn start_stop_unit() -> Profile
    ensures { result ≡ start_stop_unit }
{
    still(SerIdx::Sta, Class::Writing)
}

/// MODE SELECT
pub(super) fn mode_select(list: u16) -> Profile
    ensures { result ≡ mode_select list }
{
    Profile {
        data_out: u64::from(list),
        ..still(SerIdx::MSl, Class::Writing)
    }
}

/// MODE SENSE
pub(super) fn mode_sense(
    form: Form,
    no_descriptor: bool,
    page: ModePage,
    allocation: u16,
) -> Profile
    ensures { result ≡ mode_sense form no_descriptor page allocation }
{
    let length = header_length(form) + descriptor_length(no_descriptor) + mode_length(page);
    Profile {
        data_in: u64::from(allocation).min(u64::from(length)),
        ..still(SerIdx::MSn, Class::Reading)
    }
}

fn header_length(form: Form) -> u8
    ensures { result ≡ header_length form }
{
    match form {
        Form::Six => 4,
        Form::Ten | Form::Twelve | Form::Sixteen => 8,
    }
}

fn descriptor_length(no_descriptor: bool) -> u8
    ensures { result ≡ descriptor_length no_descriptor }
{
    if no_descriptor { 0 } else { 8 }
}

fn mode_length(page: ModePage) -> u8
    ensures { result ≡ mode_length page }
{
    match page {
        ModePage::Caching => 20,
        ModePage::Control => 12,
        ModePage::All | ModePage::AllAndSubpages => 32,
    }
}
