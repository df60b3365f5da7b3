//! The causes why a board doesn't take a post.
ghost use Rattle.std.specs.Prelude.{◌≡◌};
ghost use Rattle.dpl_board.specs.declared.fault.PostFault.TheVariants.{NoMemory};

use std::alloc::{AllocError, AllocFailed};
use thiserror::Error;

/// Why a post isn't made.
#[derive(Clone, Copy, Debug, Drop, PartialEq, Eq, Error)]
pub enum PostFault {
    #[error("there is no memory")]
    NoMemory,
    /// A worker has posted the tile before.
    #[error("worker {by} has posted the tile")]
    Twice { by: u32 },
}

impl From<AllocError> for PostFault {
    ghost from_gives = { λ _ e. e ≡ NoMemory };

    fn from(_e: AllocError) -> PostFault {
        PostFault::NoMemory
    }
}

impl<T: Drop> From<AllocFailed<T>> for PostFault {
    ghost from_gives = { λ _ e. e ≡ NoMemory };

    fn from(_e: AllocFailed<T>) -> PostFault {
        PostFault::NoMemory
    }
}
