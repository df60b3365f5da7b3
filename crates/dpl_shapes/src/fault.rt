//! Why shapes are refused.
ghost use Rattle.std.specs.Prelude.{◌≡◌};
ghost use Rattle.dpl_shapes.specs.declared.fault.ShapeFault.TheVariants.{NoMemory};

use dpl_spec_elements::PathFault;
use std::alloc::{AllocError, AllocFailed};
use thiserror::Error;

/// Why a boundary, box or path can't be taken.
#[derive(Debug, Drop, Error)]
pub enum ShapeFault {
    #[error("an edge of the boundary isn't parallel to an axis")]
    SlantedBoundary,
    /// The first fault of a path.
    #[error("{0}")]
    Path(PathFault),
    #[error("out of memory")]
    NoMemory,
}

impl From<AllocError> for ShapeFault {
    ghost from_gives = { λ _ e. e ≡ NoMemory };

    fn from(_e: AllocError) -> ShapeFault {
        ShapeFault::NoMemory
    }
}
