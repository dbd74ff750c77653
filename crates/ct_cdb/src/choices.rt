//! Fields of a CDB that name one of a few things, each by its code.

ghost use Rattle.std.specs.Prelude.{◌≡◌};
ghost use Rattle.ct_cdb.specs.Choices.{code_of_page, is_vital, inquiry_page, code_of_selection, lun_selection};
ghost use Rattle.ct_cdb.specs.Choices.{code_of_control, page_control, code_of_mode, subcode_of_mode, whole_page};
ghost use Rattle.ct_cdb.specs.Choices.{asks_subpages, mode_page, code_of_reserve_in, reserve_in_of, code_of_type};
ghost use Rattle.ct_cdb.specs.Choices.{reservation_type, code_of_reserve_out, type_of_reserve_out, has_type};
ghost use Rattle.ct_cdb.specs.Choices.{reserve_out_of};

/// What INQUIRY returns (SPC-4, 6.6): the standard data, or a page of vital product data (SPC-4, 7.8).
#[derive(Clone, Copy, Debug, PartialEq, Eq)]
pub enum InquiryPage {
    Standard,
    /// 00h: supported VPD pages
    SupportedPages,
    /// 80h: unit serial number
    UnitSerialNumber,
    /// 83h: device identification
    DeviceIdentification,
    /// B0h: block limits (SBC-3)
    BlockLimits,
    /// B2h: logical block provisioning (SBC-3)
    LogicalBlockProvisioning,
}

/// Which logical units REPORT LUNS lists (SPC-4, SELECT REPORT).
#[derive(Clone, Copy, Debug, PartialEq, Eq)]
pub enum LunSelection {
    /// 00h: those that are no well known ones
    Addressed,
    /// 01h: well known ones alone
    WellKnown,
    /// 02h: all
    All,
}

/// Which values of mode pages MODE SENSE returns (SPC-4, PC).
#[derive(Clone, Copy, Debug, PartialEq, Eq)]
pub enum PageControl {
    Current,
    Changeable,
    Default,
    Saved,
}

/// Which mode pages MODE SENSE returns (SPC-4, PAGE CODE and SUBPAGE CODE).
#[derive(Clone, Copy, Debug, PartialEq, Eq)]
pub enum ModePage {
    /// 08h: Caching (SBC-3)
    Caching,
    /// 0Ah: Control
    Control,
    /// 3Fh: all pages
    All,
    /// 3Fh with FFh: all pages and subpages
    AllAndSubpages,
}

/// What PERSISTENT RESERVE IN asks for (SPC-4, SERVICE ACTION).
#[derive(Clone, Copy, Debug, PartialEq, Eq)]
pub enum ReserveIn {
    ReadKeys,
    ReadReservation,
    ReportCapabilities,
    ReadFullStatus,
}

/// What PERSISTENT RESERVE OUT does (SPC-4, SERVICE ACTION), with the type where it has one.
#[derive(Clone, Copy, Debug, PartialEq, Eq)]
pub enum ReserveOut {
    Register,
    Reserve(ReservationType),
    Release(ReservationType),
    Clear,
    Preempt(ReservationType),
    PreemptAndAbort(ReservationType),
    RegisterAndIgnoreExistingKey,
}

/// The type of a persistent reservation (SPC-4, TYPE).
#[derive(Clone, Copy, Debug, PartialEq, Eq)]
pub enum ReservationType {
    /// 1h
    WriteExclusive,
    /// 3h
    ExclusiveAccess,
    /// 5h
    WriteExclusiveRegistrantsOnly,
    /// 6h
    ExclusiveAccessRegistrantsOnly,
    /// 7h
    WriteExclusiveAllRegistrants,
    /// 8h
    ExclusiveAccessAllRegistrants,
}

impl InquiryPage {
    /// By EVPD and PAGE CODE.
    pub(crate) fn by(is_vital: bool, code: u8) -> Option<InquiryPage>
        ensures { result ≡ inquiry_page is_vital code }
    {
        match (is_vital, code) {
            (false, 0x00) => Some(InquiryPage::Standard),
            (true, 0x00) => Some(InquiryPage::SupportedPages),
            (true, 0x80) => Some(InquiryPage::UnitSerialNumber),
            (true, 0x83) => Some(InquiryPage::DeviceIdentification),
            (true, 0xb0) => Some(InquiryPage::BlockLimits),
            (true, 0xb2) => Some(InquiryPage::LogicalBlockProvisioning),
            _ => None,
        }
    }

    /// Whether it is a page of vital product data: EVPD.
    pub fn is_vital(self) -> bool
        ensures { result ≡ is_vital self }
    {
        match self {
            InquiryPage::Standard => false,
            InquiryPage::SupportedPages
            | InquiryPage::UnitSerialNumber
            | InquiryPage::DeviceIdentification
            | InquiryPage::BlockLimits
            | InquiryPage::LogicalBlockProvisioning => true,
        }
    }

    /// PAGE CODE, 0 for the standard data.
    pub fn code(self) -> u8
        ensures { result ≡ code_of_page self }
    {
        match self {
            InquiryPage::Standard | InquiryPage::SupportedPages => 0x00,
            InquiryPage::UnitSerialNumber => 0x80,
            InquiryPage::DeviceIdentification => 0x83,
            InquiryPage::BlockLimits => 0xb0,
            InquiryPage::LogicalBlockProvisioning => 0xb2,
        }
    }
}

impl LunSelection {
    pub(crate) fn by(code: u8) -> Option<LunSelection>
        ensures { result ≡ lun_selection code }
    {
        match code {
            0x00 => Some(LunSelection::Addressed),
            0x01 => Some(LunSelection::WellKnown),
            0x02 => Some(LunSelection::All),
            _ => None,
        }
    }

    /// SELECT REPORT
    pub fn code(self) -> u8
        ensures { result ≡ code_of_selection self }
    {
        match self {
            LunSelection::Addressed => 0x00,
            LunSelection::WellKnown => 0x01,
            LunSelection::All => 0x02,
        }
    }
}

impl PageControl {
    pub(crate) fn by(code: u8) -> PageControl
        ensures { result ≡ page_control code }
    {
        match code {
            0 => PageControl::Current,
            1 => PageControl::Changeable,
            2 => PageControl::Default,
            _ => PageControl::Saved,
        }
    }

    /// PC
    pub fn code(self) -> u8
        ensures { result ≡ code_of_control self }
    {
        match self {
            PageControl::Current => 0,
            PageControl::Changeable => 1,
            PageControl::Default => 2,
            PageControl::Saved => 3,
        }
    }
}

impl ModePage {
    /// By PAGE CODE alone.
    pub(crate) fn whole(code: u8) -> Option<ModePage>
        ensures { result ≡ whole_page code }
    {
        match code {
            0x08 => Some(ModePage::Caching),
            0x0a => Some(ModePage::Control),
            0x3f => Some(ModePage::All),
            _ => None,
        }
    }

    /// Whether these codes ask for all pages with their subpages.
    pub(crate) fn asks_subpages(code: u8, subcode: u8) -> bool
        ensures { result ≡ asks_subpages code subcode }
    {
        code == 0x3f && subcode == 0xff
    }

    /// By PAGE CODE and SUBPAGE CODE.
    pub(crate) fn by(code: u8, subcode: u8) -> Option<ModePage>
        ensures { result ≡ mode_page code subcode }
    {
        if ModePage::asks_subpages(code, subcode) {
            Some(ModePage::AllAndSubpages)
        } else {
            ModePage::whole(code)
        }
    }

    /// PAGE CODE
    pub fn code(self) -> u8
        ensures { result ≡ code_of_mode self }
    {
        match self {
            ModePage::Caching => 0x08,
            ModePage::Control => 0x0a,
            ModePage::All | ModePage::AllAndSubpages => 0x3f,
        }
    }

    /// SUBPAGE CODE
    pub fn subcode(self) -> u8
        ensures { result ≡ subcode_of_mode self }
    {
        match self {
            ModePage::Caching | ModePage::Control | ModePage::All => 0x00,
            ModePage::AllAndSubpages => 0xff,
        }
    }
}

impl ReserveIn {
    pub(crate) fn by(code: u8) -> Option<ReserveIn>
        ensures { result ≡ reserve_in_of code }
    {
        match code {
            0x00 => Some(ReserveIn::ReadKeys),
            0x01 => Some(ReserveIn::ReadReservation),
            0x02 => Some(ReserveIn::ReportCapabilities),
            0x03 => Some(ReserveIn::ReadFullStatus),
            _ => None,
        }
    }

    /// SERVICE ACTION
    pub fn code(self) -> u8
        ensures { result ≡ code_of_reserve_in self }
    {
        match self {
            ReserveIn::ReadKeys => 0x00,
            ReserveIn::ReadReservation => 0x01,
            ReserveIn::ReportCapabilities => 0x02,
            ReserveIn::ReadFullStatus => 0x03,
        }
    }
}

impl ReservationType {
    /// By the byte of SCOPE and TYPE.
    pub(crate) fn by(code: u8) -> Option<ReservationType>
        ensures { result ≡ reservation_type code }
    {
        match code {
            0x01 => Some(ReservationType::WriteExclusive),
            0x03 => Some(ReservationType::ExclusiveAccess),
            0x05 => Some(ReservationType::WriteExclusiveRegistrantsOnly),
            0x06 => Some(ReservationType::ExclusiveAccessRegistrantsOnly),
            0x07 => Some(ReservationType::WriteExclusiveAllRegistrants),
            0x08 => Some(ReservationType::ExclusiveAccessAllRegistrants),
            _ => None,
        }
    }

    /// TYPE
    pub fn code(self) -> u8
        ensures { result ≡ code_of_type self }
    {
        match self {
            ReservationType::WriteExclusive => 0x01,
            ReservationType::ExclusiveAccess => 0x03,
            ReservationType::WriteExclusiveRegistrantsOnly => 0x05,
            ReservationType::ExclusiveAccessRegistrantsOnly => 0x06,
            ReservationType::WriteExclusiveAllRegistrants => 0x07,
            ReservationType::ExclusiveAccessAllRegistrants => 0x08,
        }
    }
}

impl ReserveOut {
    /// By SERVICE ACTION, with this type where the action has one.
    pub(crate) fn by(kind: ReservationType, code: u8) -> Option<ReserveOut>
        ensures { result ≡ reserve_out_of kind code }
    {
        match code {
            0x00 => Some(ReserveOut::Register),
            0x01 => Some(ReserveOut::Reserve(kind)),
            0x02 => Some(ReserveOut::Release(kind)),
            0x03 => Some(ReserveOut::Clear),
            0x04 => Some(ReserveOut::Preempt(kind)),
            0x05 => Some(ReserveOut::PreemptAndAbort(kind)),
            0x06 => Some(ReserveOut::RegisterAndIgnoreExistingKey),
            _ => None,
        }
    }

    /// Whether the action of this code has a type.
    pub(crate) fn has_type(code: u8) -> bool
        ensures { result ≡ has_type code }
    {
        matches!(code, 0x01 | 0x02 | 0x04 | 0x05)
    }

    /// SERVICE ACTION
    pub fn code(self) -> u8
        ensures { result ≡ code_of_reserve_out self }
    {
        match self {
            ReserveOut::Register => 0x00,
            ReserveOut::Reserve(_) => 0x01,
            ReserveOut::Release(_) => 0x02,
            ReserveOut::Clear => 0x03,
            ReserveOut::Preempt(_) => 0x04,
            ReserveOut::PreemptAndAbort(_) => 0x05,
            ReserveOut::RegisterAndIgnoreExistingKey => 0x06,
        }
    }

    /// SCOPE and TYPE, 0 where the action has none.
    pub fn type_code(self) -> u8
        ensures { result ≡ type_of_reserve_out self }
    {
        match self {
            ReserveOut::Register | ReserveOut::Clear | ReserveOut::RegisterAndIgnoreExistingKey => {
                0
            }
            ReserveOut::Reserve(kind)
            | ReserveOut::Release(kind)
            | ReserveOut::Preempt(kind)
            | ReserveOut::PreemptAndAbort(kind) => kind.code(),
        }
    }
}
