//! Words of a command line.

use std::alloc::{AllocError, Global};

/// The words of a line, which single spaces part.
pub fn words(alloc: Global, line: &str) -> Result<Vec<&str>, AllocError> {
    let mut words = Vec::new(alloc);
    for word in line.split(' ') {
        words.push(word)?;
    }
    Ok(words)
}
