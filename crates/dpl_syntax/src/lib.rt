//! The library that a GDSII Stream file holds (GDSII Stream Format, Release 6).
#![tactic(auto)]

mod bodies;
mod element;
mod elements;
mod fault;
mod head;
mod library;
mod plain;
mod read;
mod reader;
mod structures;

pub use crate::element::{Body, Element, Trans};
pub use crate::fault::SyntaxFault;
pub use crate::library::{Frame, Library};
pub use crate::read::read_library;
