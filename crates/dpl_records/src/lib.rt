//! The records of a GDSII Stream file, one by one (GDSII Stream Format, Release 6). Offsets and lengths are in bytes.
#![tactic(auto)]

mod fault;
mod field;
mod form;
pub mod kinds;
mod record;

pub use crate::fault::RecordFault;
pub use crate::field::{i16_at, i32_at, name_of, real_at, u16_at};
pub use crate::record::{Record, next_record, put_record};
