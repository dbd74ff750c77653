//! Commands, each one row of two tables: of the forms of its bytes, read and written, and of what it means.
#![tactic(auto)]

mod built;
mod cdb_bytes;
mod choices;
mod decoder;
mod encoder;
mod few;
mod laws;
mod op;
mod profile;
mod ranges;
mod row;

pub use cdb_bytes::CdbBytes;
pub use choices::{
    InquiryPage, LunSelection, ModePage, PageControl, ReservationType, ReserveIn, ReserveOut,
};
pub use decoder::decode;
pub use encoder::encode;
pub use few::Few;
pub use laws::{encoded_reads_back, rows_fit, table};
pub use op::{Attr2, Cdb, CdbFault, Form, Op, SerIdx};
pub use profile::{Class, Phase, Profile, asked, index};
pub use ranges::{LbaRange, Ranges};
