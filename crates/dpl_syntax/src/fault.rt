//! Why a file holds no library.

ghost use Rattle.std.specs.Prelude.{◌≡◌};
ghost use Rattle.dpl_syntax.specs.declared.fault.SyntaxFault.TheVariants.{NoMemory};

use dpl_records::RecordFault;
use std::alloc::{AllocError, AllocFailed};
use std::fmt;
use thiserror::Error;

/// Why a file holds no library, by the first record that is refused. `at` is the offset of that record's first byte.
#[derive(Clone, Copy, Debug, Drop, Error)]
pub enum SyntaxFault {
    /// Memory ran out.
    NoMemory,
    /// The bytes end within a record, or before ENDLIB.
    Truncated { at: usize },
    /// The length is below 4 or odd.
    BadLength { at: usize },
    /// No record has this type.
    UnknownRecord { at: usize },
    /// The data type isn't that of the record's type.
    BadDataType { at: usize },
    /// The number of bytes isn't one of the record's type, or the points aren't as many as the element has.
    BadSize { at: usize },
    /// The grammar has no record of this type here.
    Unexpected { at: usize },
    /// The name of a structure or of a reference is empty.
    BadName { at: usize },
    /// An earlier structure has this name.
    DuplicateStructure { at: usize },
}

impl fmt::Display for SyntaxFault {
    fn fmt<W: fmt::Write>(&self, f: &mut fmt::Formatter<W>) -> fmt::Result {
        let (at, why) = match *self {
            SyntaxFault::NoMemory => return f.write_str("there is no memory"),
            SyntaxFault::Truncated { at } => {
                return write!(f, "the bytes end within the record at {at}");
            }
            SyntaxFault::BadLength { at } => (at, "has no length of a record"),
            SyntaxFault::UnknownRecord { at } => (at, "has an unknown type"),
            SyntaxFault::BadDataType { at } => (at, "has the wrong data type"),
            SyntaxFault::BadSize { at } => (at, "has the wrong number of bytes"),
            SyntaxFault::Unexpected { at } => (at, "can't stand there"),
            SyntaxFault::BadName { at } => (at, "has an empty name"),
            SyntaxFault::DuplicateStructure { at } => {
                (at, "names a second structure of this name")
            }
        };
        write!(f, "the record at {at} {why}")
    }
}

impl From<RecordFault> for SyntaxFault {
    ghost use Rattle.dpl_syntax.specs.Outcome.{of_record};

    ghost from_gives = { λ fault e. e ≡ of_record fault };

    fn from(fault: RecordFault) -> SyntaxFault {
        match fault {
            RecordFault::Truncated { at } => SyntaxFault::Truncated { at },
            RecordFault::BadLength { at } => SyntaxFault::BadLength { at },
            RecordFault::UnknownRecord { at } => SyntaxFault::UnknownRecord { at },
            RecordFault::BadDataType { at } => SyntaxFault::BadDataType { at },
            RecordFault::BadSize { at } => SyntaxFault::BadSize { at },
        }
    }
}

impl From<AllocError> for SyntaxFault {
    ghost from_gives = { λ _ e. e ≡ NoMemory };

    fn from(_e: AllocError) -> SyntaxFault {
        SyntaxFault::NoMemory
    }
}

impl<T: Drop> From<AllocFailed<T>> for SyntaxFault {
    ghost from_gives = { λ _ e. e ≡ NoMemory };

    fn from(_e: AllocFailed<T>) -> SyntaxFault {
        SyntaxFault::NoMemory
    }
}
