ghost use Rattle.std.specs.Prelude.{◌≡◌, ◌<◌};
ghost use Rattle.ct_pages.specs.Pages.{default_pages, changeable_pages, values, flag, caching_page, control_page};

use ct_cdb::PageControl;

/// WCE of the Caching mode page: the write cache is enabled
const WCE: u8 = 0x04;

/// D_SENSE of the Control mode page: sense data have the descriptor form
const D_SENSE: u8 = 0x04;

/// QUEUE ALGORITHM MODIFIER 1h of the Control mode page: unrestricted reordering
const UNRESTRICTED: u8 = 0x10;

/// SWP of the Control mode page: software write protect
const SWP: u8 = 0x08;

/// TAS of the Control mode page: a command that another nexus aborts ends with TASK ABORTED
const TAS: u8 = 0x40;

/// The fields of the mode pages (SPC-4, 7.5, and SBC-3, 6.4) that a logical unit has. All other fields are 0.
#[derive(Clone, Copy, Debug, PartialEq, Eq)]
pub struct ModePages {
    /// D_SENSE: sense data have the descriptor form
    pub descriptor: bool,
    /// QUEUE ALGORITHM MODIFIER is 1h: reordering is unrestricted
    pub free_order: bool,
    /// SWP: software write protect
    pub protect: bool,
    /// TAS: a command that another nexus aborts ends with TASK ABORTED
    pub tas: bool,
    /// WCE: the write cache is enabled
    pub cache: bool,
}

impl ModePages {
    /// The default values.
    pub fn open() -> ModePages
        ensures { result ≡ default_pages }
    {
        ModePages {
            descriptor: false,
            free_order: false,
            protect: false,
            tas: false,
            cache: true,
        }
    }

    /// The changeable fields, set.
    fn changeable() -> ModePages
        ensures { result ≡ changeable_pages }
    {
        ModePages {
            descriptor: true,
            free_order: true,
            protect: true,
            tas: true,
            cache: true,
        }
    }

    /// The values that a page control asks for.
    pub(crate) fn values(self, control: PageControl) -> ModePages
        ensures { result ≡ values control self }
    {
        match control {
            PageControl::Current => self,
            PageControl::Changeable => ModePages::changeable(),
            PageControl::Default | PageControl::Saved => ModePages::open(),
        }
    }

    /// Caching, 08h.
    pub(crate) fn caching_page(self) -> [u8; 20]
        ensures { result ≡ caching_page self }
    {
        let mut page = [0; 20];
        page[0] = 0x08;
        page[1] = 0x12;
        page[2] = flag(self.cache, WCE);
        page
    }

    /// Control, 0Ah.
    pub(crate) fn control_page(self) -> [u8; 12]
        ensures { result ≡ control_page self }
    {
        let mut page = [0; 12];
        page[0] = 0x0a;
        page[1] = 0x0a;
        page[2] = flag(self.descriptor, D_SENSE);
        page[3] = flag(self.free_order, UNRESTRICTED);
        page[4] = flag(self.protect, SWP);
        page[5] = flag(self.tas, TAS);
        page
    }
}

pub(crate) fn flag(is_set: bool, weight: u8) -> u8
    ensures { result ≡ flag is_set weight }
{
    if is_set { weight } else { 0 }
}
