//! Why no record stands at an offset.

use thiserror::Error;

/// Why no record stands at an offset. `at` is that offset.
#[derive(Clone, Copy, Debug, Drop, PartialEq, Eq, Error)]
pub enum RecordFault {
    /// Fewer bytes are left than a record has.
    #[error("the record at {at} passes the end of the bytes")]
    Truncated { at: usize },
    /// The length is below 4 or odd.
    #[error("the record at {at} has no length of a record")]
    BadLength { at: usize },
    /// No record has this type.
    #[error("the record at {at} has an unknown type")]
    UnknownRecord { at: usize },
    /// The data type isn't that of the record's type.
    #[error("the record at {at} has the wrong data type")]
    BadDataType { at: usize },
    /// The number of bytes isn't one of the record's type.
    #[error("the record at {at} has the wrong number of bytes")]
    BadSize { at: usize },
}
