//! What is said as JSON.
use dpl_cert::Name;
use serde::Serialize;
use std::alloc::{AllocError, Global};

/// A fault of a layout, by its name in certificates, and where it stands.
#[derive(Clone, Copy, Serialize)]
pub(crate) struct Refusal {
    at: u64,
    refused: &'static str,
}

impl Refusal {
    pub(crate) fn of(name: Name, at: u64) -> Refusal {
        Refusal {
            at,
            refused: name.text(),
        }
    }
}

/// A value as a JSON text of one line. Numbers, texts and lists of them are written unless memory runs out.
pub(crate) fn line_of<T: Serialize>(alloc: Global, value: &T) -> Result<String, AllocError> {
    match serde_json::to_string(alloc, value) {
        Ok(mut text) => {
            text.push_str("\n")?;
            Ok(text)
        }
        Err(_) => Err(AllocError),
    }
}

/// The first fault of a layout as a JSON text of one line.
pub fn refused_json(alloc: Global, name: Name, at: u64) -> Result<String, AllocError> {
    line_of(alloc, &Refusal::of(name, at))
}
