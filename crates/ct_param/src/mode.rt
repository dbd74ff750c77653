//! The parameter list of MODE SELECT (SPC-4, MODE SELECT and 7.5).

ghost use Rattle.std.specs.Prelude.{◌≡◌, ◌<◌, ◌≤◌, ◌+◌, ℕ, suc, ◌∷◌, length, drop, IfOk, IfErr, OnOk};
ghost use Rattle.ct_word.specs.Fields.{number_at};
ghost use Rattle.ct_param.specs.ModeLists.{no_pages, is_empty, page_fault, with_pages, pages_of, described};
ghost use Rattle.ct_param.specs.ModeLists.{header_length, descriptor_length, mode_list_of};

use crate::fault::ListFault;
use byteorder::{BigEndian, ByteOrder};
use ct_word::limit::BLOCK_SIZE;
use ct_word::u16_at;

/// PAGE CODE of Caching (SBC-3)
const CACHING: u8 = 0x08;

/// PAGE CODE of Control (SPC-4)
const CONTROL: u8 = 0x0a;

/// PS, which is ignored, is the bit above PAGE CODE and SPF.
const PS: u8 = 0x80;

/// Bytes of a block descriptor.
const DESCRIPTOR: usize = 8;

/// The mode pages of a parameter list, each there at most once, with their bytes from the code byte on.
#[derive(Clone, Copy, Debug, PartialEq, Eq)]
pub struct ModeList {
    /// 08h, Caching (SBC-3)
    pub caching: Option<[u8; 20]>,
    /// 0Ah, Control (SPC-4)
    pub control: Option<[u8; 12]>,
}

/// Reads the parameter list of a MODE SELECT (10), where it is long, or of a MODE SELECT (6). The first fault is told,
/// in the order of the bytes: BadLength where the list ends inside the header, the descriptor or a page; BadField at a
/// descriptor length, a block length, a page code or a page length that isn't accepted, and at a page code that came
/// before.
#[tactic(auto, unfolding(crate::specs::ModeLists::mode_list_of))]
pub fn read_mode(bytes: &[u8], long: bool) -> Result<ModeList, ListFault>
    ensures { result ≡ mode_list_of long bytes.now }
{
    if bytes.is_empty() {
        return Ok(ModeList::none());
    }
    let header = header_length(long);
    if bytes.len() < header {
        return Err(ListFault::BadLength);
    }
    read_described(descriptor_length(bytes, long), &bytes[header..])
}

fn header_length(long: bool) -> usize
    ensures { result ≡ header_length long }
{
    if long { 8 } else { 4 }
}

fn descriptor_length(bytes: &[u8], long: bool) -> usize
    requires { header_length long ≤ length bytes.now }
    ensures { result ≡ descriptor_length long bytes.now }
{
    if long {
        usize::from(u16_at(bytes, 6))
    } else {
        usize::from(bytes[3])
    }
}

/// Reads what follows the header, with a block descriptor of so many bytes.
fn read_described(size: usize, bytes: &[u8]) -> Result<ModeList, ListFault>
    ensures { result ≡ described size bytes.now }
{
    match size {
        0 => read_pages(bytes),
        DESCRIPTOR => {
            if bytes.len() < DESCRIPTOR {
                Err(ListFault::BadLength)
            } else if block_length(bytes) != BLOCK_SIZE as u32 {
                Err(ListFault::BadField)
            } else {
                read_pages(&bytes[DESCRIPTOR..])
            }
        }
        _ => Err(ListFault::BadField),
    }
}

/// LOGICAL BLOCK LENGTH of a block descriptor.
fn block_length(descriptor: &[u8]) -> u32
    requires { 8 ≤ length descriptor.now }
    ensures { result ≡ number_at 3 5 descriptor.now }
{
    BigEndian::read_u24(&descriptor[5..])
}

fn read_pages(bytes: &[u8]) -> Result<ModeList, ListFault>
    ensures { result ≡ pages_of bytes.now }
{
    let mut list = ModeList::none();
    let mut at = 0;
    while at < bytes.len() {
        at += list.add_page(&bytes[at..])?;
    }
    Ok(list)
}

/// A page with so many bytes behind its length byte: judges what follows the code byte.
fn check_page(size: u8, rest: &[u8]) -> Result<(), ListFault>
    ensures good { OnOk result (page_fault size rest.now ≡ None) }
    ensures bad { IfErr result (λ fault. page_fault size rest.now ≡ Some fault) }
{
    match rest {
        [] => Err(ListFault::BadLength),
        [stated, body @ ..] => {
            if *stated != size {
                Err(ListFault::BadField)
            } else if body.len() < usize::from(size) {
                Err(ListFault::BadLength)
            } else {
                Ok(())
            }
        }
    }
}

impl ModeList {
    /// No pages.
    pub fn none() -> ModeList
        ensures { result ≡ no_pages }
    {
        ModeList {
            caching: None,
            control: None,
        }
    }

    /// There is no page, as in a list of no bytes.
    pub fn is_empty(&self) -> bool
        ensures { result ≡ is_empty self.now }
    {
        self.caching.is_none() && self.control.is_none()
    }

    /// Adds the page with which the bytes begin, and returns how many bytes it has.
    fn add_page(&mut self, bytes: &[u8]) -> Result<usize, ListFault>
        requires { 0 < length bytes.now }
        ensures size { IfOk result (λ size. (0 < size) × (size ≤ length bytes.now)) }
        ensures good { IfOk result (λ size. (more : ℕ) →
            with_pages (suc more) self.old bytes.now ≡ with_pages more self.new (drop size bytes.now)) }
        ensures bad { IfErr result (λ fault. (more : ℕ) → with_pages (suc more) self.old bytes.now ≡ Err fault) }
    {
        match bytes {
            [] => unreachable!(),
            [code, rest @ ..] => {
                let code = *code % PS;
                if code == CACHING && self.caching.is_none() {
                    check_page(0x12, rest)?;
                    let mut page = [0; 20];
                    page.copy_from_slice(&bytes[..20]);
                    self.caching = Some(page);
                    Ok(20)
                } else if code == CONTROL && self.control.is_none() {
                    check_page(0x0a, rest)?;
                    let mut page = [0; 12];
                    page.copy_from_slice(&bytes[..12]);
                    self.control = Some(page);
                    Ok(12)
                } else {
                    Err(ListFault::BadField)
                }
            }
        }
    }
}
