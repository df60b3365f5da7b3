//! Why no layer is read of a file.
ghost use Rattle.std.specs.Prelude.{◌≡◌, option_map};
ghost use Rattle.dpl_layer.specs.Naming.{element_name as element_name_of, flatten_name, path_name as path_name_of, syntax_name, top_name};
ghost use Rattle.dpl_layer.specs.LayerFaults.{fault_of, of_named};
ghost use Rattle.dpl_layer.specs.declared.fault.LayerFault.TheVariants.{NoMemory, Refused};

use dpl_cert::Name;
use dpl_flatten::{ElementFault, FlattenFault, PathFault, TopFault};
use dpl_syntax::SyntaxFault;
use std::alloc::AllocError;
use thiserror::Error;

/// Why no layer is read of a file.
#[derive(Clone, Copy, Debug, Drop, PartialEq, Eq, Error)]
pub enum LayerFault {
    #[error("out of memory")]
    NoMemory,
    /// The first fault of the layout, by its name in certificates, and the offset in bytes of the record where it stands; the number of tops where there are several, and 0 where there is none or a layer has too many points.
    #[error("the layout is refused: {name} {at}")]
    Refused { name: Name, at: u64 },
}

/// A fault that stands at an offset of the file.
fn refused(name: Name, at: usize) -> LayerFault
    ensures { result ≡ Refused name at }
{
    LayerFault::Refused {
        name,
        at: at as u64,
    }
}

/// The name in certificates of a path's fault.
fn path_name(fault: PathFault) -> Name
    ensures { result ≡ path_name_of fault }
{
    match fault {
        PathFault::RoundPath => Name::RoundPath,
        PathFault::BadPathType => Name::BadPathType,
        PathFault::OddWidth => Name::OddWidth,
        PathFault::SlantedPath => Name::SlantedPath,
        PathFault::PathTurnsBack => Name::PathTurnsBack,
        PathFault::NegativeExtension => Name::NegativeExtension,
    }
}

/// The name in certificates of an element's fault.
fn element_name(fault: ElementFault) -> Name
    ensures { result ≡ element_name_of fault }
{
    match fault {
        ElementFault::AbsoluteTransform => Name::AbsoluteTransform,
        ElementFault::Magnified => Name::Magnified,
        ElementFault::AngleNotRight => Name::AngleNotRight,
        ElementFault::BadArray => Name::BadArray,
        ElementFault::SlantedBoundary => Name::SlantedBoundary,
        ElementFault::Path(fault) => path_name(fault),
    }
}

impl From<AllocError> for LayerFault {
    ghost from_gives = { λ _ e. e ≡ NoMemory };

    fn from(_: AllocError) -> Self {
        LayerFault::NoMemory
    }
}

impl From<SyntaxFault> for LayerFault {
    ghost from_gives = { λ f e. e ≡ of_named (option_map syntax_name (fault_of f)) };

    fn from(fault: SyntaxFault) -> Self {
        match fault {
            SyntaxFault::NoMemory => LayerFault::NoMemory,
            SyntaxFault::Truncated { at } => refused(Name::Truncated, at),
            SyntaxFault::BadLength { at } => refused(Name::BadLength, at),
            SyntaxFault::UnknownRecord { at } => refused(Name::UnknownRecord, at),
            SyntaxFault::BadDataType { at } => refused(Name::BadDataType, at),
            SyntaxFault::BadSize { at } => refused(Name::BadSize, at),
            SyntaxFault::Unexpected { at } => refused(Name::Unexpected, at),
            SyntaxFault::BadName { at } => refused(Name::BadName, at),
            SyntaxFault::DuplicateStructure { at } => refused(Name::DuplicateStructure, at),
        }
    }
}

impl From<TopFault> for LayerFault {
    ghost from_gives = { λ f e. e ≡ of_named (top_name f) };

    fn from(fault: TopFault) -> Self {
        match fault {
            TopFault::NoMemory => LayerFault::NoMemory,
            TopFault::NoTop => refused(Name::NoTop, 0),
            TopFault::ManyTops { count } => LayerFault::Refused {
                name: Name::ManyTops,
                at: count,
            },
        }
    }
}

impl From<FlattenFault> for LayerFault {
    ghost from_gives = { λ f e. e ≡ of_named (flatten_name f) };

    fn from(fault: FlattenFault) -> Self {
        match fault {
            FlattenFault::NoMemory => LayerFault::NoMemory,
            FlattenFault::MissingStructure { at } => refused(Name::MissingStructure, at),
            FlattenFault::Recursion { at } => refused(Name::Recursion, at),
            FlattenFault::Element { at, fault } => refused(element_name(fault), at),
            FlattenFault::TooManyPoints => refused(Name::TooManyPoints, 0),
            FlattenFault::OutOfRange { at } => refused(Name::OutOfRange, at),
        }
    }
}
