//! What a layout is when every reference is followed, in `specs/`, and the values that name its layers and faults.
#![tactic(auto)]

ghost use Rattle.std.specs.Prelude.{◌≡◌};
ghost use Rattle.dpl_spec_layout.specs.declared.TopFault.TheVariants.{NoMemory as NoMemoryForTop};
ghost use Rattle.dpl_spec_layout.specs.declared.FlattenFault.TheVariants.{NoMemory};

pub use dpl_spec_elements::PathFault;
use std::alloc::{AllocError, AllocFailed};
use thiserror::Error;

/// A layer with a datatype.
#[derive(Clone, Copy, Debug, Drop, PartialEq, Eq)]
pub struct Layer {
    pub layer: u16,
    pub datatype: u16,
}

/// What an element of a layout can be refused for, in the order in which the faults of one element are tried.
#[derive(Clone, Copy, Debug, Drop)]
pub enum ElementFault {
    AbsoluteTransform,
    Magnified,
    AngleNotRight,
    BadArray,
    SlantedBoundary,
    /// The first fault of a path.
    Path(PathFault),
}

/// Why a library has no top structure to begin at.
#[derive(Clone, Copy, Debug, Drop, Error)]
pub enum TopFault {
    #[error("out of memory")]
    NoMemory,
    /// No structure has the given name, or without a name each structure is referred to.
    #[error("there is no top structure")]
    NoTop,
    /// Without a name, so many structures aren't referred to.
    #[error("there are {count} structures that no reference names")]
    ManyTops { count: u64 },
}

/// The first fault of the structures that a top structure reaches. `at` is the offset in the file, in bytes, of the
/// first record of an element.
#[derive(Clone, Copy, Debug, Drop, Error)]
pub enum FlattenFault {
    #[error("out of memory")]
    NoMemory,
    /// A reference names a structure that isn't there.
    #[error("the reference at {at} names no structure")]
    MissingStructure { at: usize },
    /// A reference lies on a cycle of references.
    #[error("the reference at {at} lies on a cycle of references")]
    Recursion { at: usize },
    /// A reference that can't be followed, or a shape of the chosen layer that can't be drawn.
    #[error("the element at {at} is refused: {fault:?}")]
    Element { at: usize, fault: ElementFault },
    /// The layer has more than 16,777,216 points in all its placements.
    #[error("the layer has too many points")]
    TooManyPoints,
    /// A placed shape has a coordinate farther from 0 than 1,000,000,000 database units.
    #[error("the element at {at} is placed out of range")]
    OutOfRange { at: usize },
}

impl From<AllocError> for TopFault {
    ghost from_gives = { λ _ e. e ≡ NoMemoryForTop };

    fn from(_e: AllocError) -> TopFault {
        TopFault::NoMemory
    }
}

impl<T: Drop> From<AllocFailed<T>> for TopFault {
    ghost from_gives = { λ _ e. e ≡ NoMemoryForTop };

    fn from(_e: AllocFailed<T>) -> TopFault {
        TopFault::NoMemory
    }
}

impl From<AllocError> for FlattenFault {
    ghost from_gives = { λ _ e. e ≡ NoMemory };

    fn from(_e: AllocError) -> FlattenFault {
        FlattenFault::NoMemory
    }
}

impl<T: Drop> From<AllocFailed<T>> for FlattenFault {
    ghost from_gives = { λ _ e. e ≡ NoMemory };

    fn from(_e: AllocFailed<T>) -> FlattenFault {
        FlattenFault::NoMemory
    }
}
