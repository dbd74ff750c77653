//! MODE SENSE (SPC-4).

ghost use Rattle.std.specs.Prelude.{◌≡◌, ◌≤◌, ◌+◌, ◌-◌, ◌++◌, length};
ghost use Rattle.ct_pages.specs.Senses.{pages_asked, block_descriptor, descriptor_of, device_parameter, header};
ghost use Rattle.ct_pages.specs.Senses.{whole_mode_data, mode_data};

use crate::pages::{ModePages, flag};
use ct_cdb::{Form, ModePage, PageControl};
use ct_param::ShortBytes;
use ct_word::Reserve;
use ct_word::limit::BLOCK_SIZE;

/// A long header, a block descriptor and two pages.
type ModeData = ShortBytes<48>;

/// DPOFUA: DPO and FUA are accepted
const DPOFUA: u8 = 0x10;

/// WP: the medium is write protected
const WP: u8 = 0x80;

/// Bytes of the short header and of the long one, behind MODE DATA LENGTH.
const REST_OF_SHORT_HEADER: usize = 3;

const REST_OF_LONG_HEADER: usize = 6;

/// Adds the data-in of a MODE SENSE (SPC-4) of a logical unit with so many blocks, cut to the allocation length in
/// bytes. Saved values are refused before it comes to this.
#[tactic(auto, unfolding(crate::specs::Senses::mode_data))]
pub fn sense_mode(
    pages: &ModePages,
    blocks: u32,
    form: Form,
    no_descriptor: bool,
    control: PageControl,
    page: ModePage,
    allocation: u16,
    into: &mut Reserve<u8>,
)
    requires { length (mode_data pages.now blocks form no_descriptor control page allocation) ≤ into.old.room }
    ensures { let added = mode_data pages.now blocks form no_descriptor control page allocation in
        into.new ≡ record { items = into.old.items ++ added; room = into.old.room - length added } }
{
    let whole = whole_mode_data(*pages, blocks, form, no_descriptor, control, page);
    into.append(&whole.as_slice()[..whole.len().min(usize::from(allocation))]);
}

#[tactic(auto, unfolding(crate::specs::Senses::whole_mode_data))]
fn whole_mode_data(
    pages: ModePages,
    blocks: u32,
    form: Form,
    no_descriptor: bool,
    control: PageControl,
    page: ModePage,
) -> ModeData
    ensures { result ≡ whole_mode_data pages blocks form no_descriptor control page }
{
    let asked = pages_asked(page, pages.values(control));
    let descriptor = descriptor_of(no_descriptor, blocks);
    let mut whole = header(form, device_parameter(pages), descriptor.len(), asked.len());
    whole.append(descriptor.as_slice());
    whole.append(asked.as_slice());
    whole
}

fn pages_asked(page: ModePage, pages: ModePages) -> ModeData
    ensures pages { result ≡ pages_asked page pages }
    ensures few { length result ≤ 32 }
{
    match page {
        ModePage::Caching => ModeData::of(&pages.caching_page()),
        ModePage::Control => ModeData::of(&pages.control_page()),
        ModePage::All | ModePage::AllAndSubpages => {
            let mut both = ModeData::of(&pages.caching_page());
            both.append(&pages.control_page());
            both
        }
    }
}

/// The block descriptor, unless it is left out.
fn descriptor_of(no_descriptor: bool, blocks: u32) -> ModeData
    ensures descriptor { result ≡ descriptor_of no_descriptor blocks }
    ensures few { length result ≤ 8 }
{
    if no_descriptor {
        ModeData::none()
    } else {
        ModeData::of(&block_descriptor(blocks))
    }
}

fn block_descriptor(blocks: u32) -> [u8; 8]
    ensures { result ≡ block_descriptor blocks }
{
    let mut descriptor = [0; 8];
    descriptor[..4].copy_from_slice(&blocks.to_be_bytes());
    descriptor[4..].copy_from_slice(&(BLOCK_SIZE as u32).to_be_bytes());
    descriptor
}

fn device_parameter(pages: ModePages) -> u8
    ensures { result ≡ device_parameter pages }
{
    DPOFUA + flag(pages.protect, WP)
}

/// The header of a form, with so many bytes of block descriptors and of pages behind it.
fn header(form: Form, device: u8, descriptor: usize, pages: usize) -> ModeData
    requires descriptor { descriptor ≤ 8 }
    requires pages { pages ≤ 32 }
    ensures header { result ≡ header form device descriptor (descriptor + pages) }
    ensures few { length result ≤ 8 }
{
    let following = descriptor + pages;
    match form {
        Form::Six => {
            let length = (REST_OF_SHORT_HEADER + following) as u8;
            ModeData::of(&[length, 0, device, descriptor as u8])
        }
        Form::Ten | Form::Twelve | Form::Sixteen => {
            let [high, low] = ((REST_OF_LONG_HEADER + following) as u16).to_be_bytes();
            ModeData::of(&[high, low, 0, device, 0, 0, 0, descriptor as u8])
        }
    }
}
