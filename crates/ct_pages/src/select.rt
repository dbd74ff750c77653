//! MODE SELECT (SPC-4).

ghost use Rattle.std.specs.Prelude.{◌≡◌, ◌<◌, ◌≤◌, length, IfErr, OnOk};
ghost use Rattle.ct_pages.specs.Selects.{is_set, with_caching, with_control, have_same_fields, after_caching};
ghost use Rattle.ct_pages.specs.Selects.{after_control, selected_pages};

use crate::pages::ModePages;
use ct_param::{ListFault, ModeList};

/// Bytes of a page's header, PAGE CODE and PAGE LENGTH.
const HEADER: usize = 2;

/// Gives the pages the values of a list. BadField exactly where a page sets a bit that isn't changeable to another
/// value than its current one; then no value changes.
#[tactic(auto, unfolding(crate::specs::Selects::selected_pages))]
pub fn select_mode(pages: &mut ModePages, list: &ModeList) -> Result<(), ListFault>
    ensures good { OnOk result (selected_pages pages.old list.now ≡ Ok pages.new) }
    ensures refused { IfErr result (λ fault. selected_pages pages.old list.now ≡ Err fault) }
    ensures unchanged { IfErr result (λ _. pages.new ≡ pages.old) }
{
    let mut selected = *pages;
    if let Some(page) = &list.caching {
        selected = after_caching(page, selected)?;
    }
    if let Some(page) = &list.control {
        selected = after_control(page, selected)?;
    }
    *pages = selected;
    Ok(())
}

fn after_caching(page: &[u8; 20], pages: ModePages) -> Result<ModePages, ListFault>
    ensures { result ≡ after_caching (Some page.now) pages }
{
    let selected = ModePages {
        cache: is_set(2, 0x04, page),
        ..pages
    };
    if have_same_fields(page, &selected.caching_page()) {
        Ok(selected)
    } else {
        Err(ListFault::BadField)
    }
}

fn after_control(page: &[u8; 12], pages: ModePages) -> Result<ModePages, ListFault>
    ensures { result ≡ after_control (Some page.now) pages }
{
    let selected = ModePages {
        descriptor: is_set(2, 0x04, page),
        free_order: is_set(3, 0x10, page),
        protect: is_set(4, 0x08, page),
        tas: is_set(5, 0x40, page),
        ..pages
    };
    if have_same_fields(page, &selected.control_page()) {
        Ok(selected)
    } else {
        Err(ListFault::BadField)
    }
}

/// Whether the bit of this weight is set.
fn is_set(byte: usize, weight: u8, page: &[u8]) -> bool
    requires weight { 0 < weight }
    requires within { byte < length page.now }
    ensures { result ≡ is_set byte weight page.now }
{
    page[byte] / weight % 2 == 1
}

fn have_same_fields(a: &[u8], b: &[u8]) -> bool
    requires a { 2 ≤ length a.now }
    requires b { 2 ≤ length b.now }
    ensures { result ≡ have_same_fields a.now b.now }
{
    a[HEADER..] == b[HEADER..]
}
