//! The additional sense codes that are used, each with its sense key (SPC-4, 4.5 and the annex of additional sense
//! codes).

use crate::key;
use crate::sense::SenseCode;

/// 00/00: no additional sense information
pub const NO_ADDITIONAL_SENSE_INFORMATION: SenseCode = SenseCode {
    key: key::NO_SENSE,
    asc: 0x00,
    ascq: 0x00,
};

/// 04/02: logical unit not ready, initializing command required
pub const INITIALIZING_COMMAND_REQUIRED: SenseCode = SenseCode {
    key: key::NOT_READY,
    asc: 0x04,
    ascq: 0x02,
};

/// 0C/00: write error
pub const WRITE_ERROR: SenseCode = SenseCode {
    key: key::MEDIUM_ERROR,
    asc: 0x0c,
    ascq: 0x00,
};

/// 11/00: unrecovered read error
pub const UNRECOVERED_READ_ERROR: SenseCode = SenseCode {
    key: key::MEDIUM_ERROR,
    asc: 0x11,
    ascq: 0x00,
};

/// 1A/00: parameter list length error
pub const PARAMETER_LIST_LENGTH_ERROR: SenseCode = SenseCode {
    key: key::ILLEGAL_REQUEST,
    asc: 0x1a,
    ascq: 0x00,
};

/// 1D/00: miscompare during verify operation
pub const MISCOMPARE_DURING_VERIFY: SenseCode = SenseCode {
    key: key::MISCOMPARE,
    asc: 0x1d,
    ascq: 0x00,
};

/// 20/00: invalid command operation code
pub const INVALID_COMMAND_OPERATION_CODE: SenseCode = SenseCode {
    key: key::ILLEGAL_REQUEST,
    asc: 0x20,
    ascq: 0x00,
};

/// 21/00: logical block address out of range
pub const LBA_OUT_OF_RANGE: SenseCode = SenseCode {
    key: key::ILLEGAL_REQUEST,
    asc: 0x21,
    ascq: 0x00,
};

/// 24/00: invalid field in CDB
pub const INVALID_FIELD_IN_CDB: SenseCode = SenseCode {
    key: key::ILLEGAL_REQUEST,
    asc: 0x24,
    ascq: 0x00,
};

/// 25/00: logical unit not supported
pub const LOGICAL_UNIT_NOT_SUPPORTED: SenseCode = SenseCode {
    key: key::ILLEGAL_REQUEST,
    asc: 0x25,
    ascq: 0x00,
};

/// 26/00: invalid field in parameter list
pub const INVALID_FIELD_IN_PARAMETER_LIST: SenseCode = SenseCode {
    key: key::ILLEGAL_REQUEST,
    asc: 0x26,
    ascq: 0x00,
};

/// 26/04: invalid release of persistent reservation
pub const INVALID_RELEASE_OF_PERSISTENT_RESERVATION: SenseCode = SenseCode {
    key: key::ILLEGAL_REQUEST,
    asc: 0x26,
    ascq: 0x04,
};

/// 27/00: write protected
pub const WRITE_PROTECTED: SenseCode = SenseCode {
    key: key::DATA_PROTECT,
    asc: 0x27,
    ascq: 0x00,
};

/// 29/00: power on, reset or bus device reset occurred
pub const POWER_ON_OR_RESET_OCCURRED: SenseCode = SenseCode {
    key: key::UNIT_ATTENTION,
    asc: 0x29,
    ascq: 0x00,
};

/// 29/01: power on occurred
pub const POWER_ON_OCCURRED: SenseCode = SenseCode {
    key: key::UNIT_ATTENTION,
    asc: 0x29,
    ascq: 0x01,
};

/// 29/07: I_T nexus loss occurred
pub const I_T_NEXUS_LOSS_OCCURRED: SenseCode = SenseCode {
    key: key::UNIT_ATTENTION,
    asc: 0x29,
    ascq: 0x07,
};

/// 2A/01: mode parameters changed
pub const MODE_PARAMETERS_CHANGED: SenseCode = SenseCode {
    key: key::UNIT_ATTENTION,
    asc: 0x2a,
    ascq: 0x01,
};

/// 2A/03: reservations preempted
pub const RESERVATIONS_PREEMPTED: SenseCode = SenseCode {
    key: key::UNIT_ATTENTION,
    asc: 0x2a,
    ascq: 0x03,
};

/// 2A/04: reservations released
pub const RESERVATIONS_RELEASED: SenseCode = SenseCode {
    key: key::UNIT_ATTENTION,
    asc: 0x2a,
    ascq: 0x04,
};

/// 2A/05: registrations preempted
pub const REGISTRATIONS_PREEMPTED: SenseCode = SenseCode {
    key: key::UNIT_ATTENTION,
    asc: 0x2a,
    ascq: 0x05,
};

/// 2A/06: asymmetric access state changed
pub const ASYMMETRIC_ACCESS_STATE_CHANGED: SenseCode = SenseCode {
    key: key::UNIT_ATTENTION,
    asc: 0x2a,
    ascq: 0x06,
};

/// 2F/00: commands cleared by another initiator
pub const COMMANDS_CLEARED_BY_ANOTHER_INITIATOR: SenseCode = SenseCode {
    key: key::UNIT_ATTENTION,
    asc: 0x2f,
    ascq: 0x00,
};

/// 39/00: saving parameters not supported
pub const SAVING_PARAMETERS_NOT_SUPPORTED: SenseCode = SenseCode {
    key: key::ILLEGAL_REQUEST,
    asc: 0x39,
    ascq: 0x00,
};

/// 4E/00: overlapped commands attempted
pub const OVERLAPPED_COMMANDS_ATTEMPTED: SenseCode = SenseCode {
    key: key::ABORTED_COMMAND,
    asc: 0x4e,
    ascq: 0x00,
};

/// 55/04: insufficient registration resources
pub const INSUFFICIENT_REGISTRATION_RESOURCES: SenseCode = SenseCode {
    key: key::ILLEGAL_REQUEST,
    asc: 0x55,
    ascq: 0x04,
};
