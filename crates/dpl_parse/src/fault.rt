//! Why a text is no certificate.
ghost use Rattle.std.specs.Prelude.{◌≡◌};
ghost use Rattle.dpl_parse.specs.declared.fault.CertFault.TheVariants.{NoMemory};

use std::alloc::{AllocError, AllocFailed};

/// Why no certificate was read.
#[derive(Clone, Copy, Debug, Drop, PartialEq, Eq)]
pub enum CertFault {
    /// Memory ran out.
    NoMemory,
    /// The first line, counted from 1, up to which no certificate begins like the text.
    BadLine { line: u64 },
}

impl From<AllocError> for CertFault {
    ghost from_gives = { λ _ e. e ≡ NoMemory };

    fn from(_e: AllocError) -> CertFault {
        CertFault::NoMemory
    }
}

impl<T: Drop> From<AllocFailed<T>> for CertFault {
    ghost from_gives = { λ _ e. e ≡ NoMemory };

    fn from(_e: AllocFailed<T>) -> CertFault {
        CertFault::NoMemory
    }
}
