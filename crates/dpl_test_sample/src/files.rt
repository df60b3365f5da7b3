//! Files in memory, and texts in parts.
ghost use Rattle.std.specs.Prelude.{◌<◌};

use dpl_host::{Failing, MemHost};
use std::alloc::{AllocError, Global};
use std::collections::BTreeMap;

/// A host with these files, of which a call moves `step` bytes at most, and the listed calls fail.
pub fn host(
    alloc: Global,
    named: Vec<(&str, Vec<u8>)>,
    step: usize,
    failing: Vec<Failing>,
) -> Result<MemHost, AllocError>
    requires { 0 < step }
{
    let mut files = BTreeMap::new(alloc);
    for (name, bytes) in named {
        files.insert(String::from_str(alloc, name)?, bytes)?;
    }
    Ok(MemHost::new(alloc, files, step, failing))
}

/// Whether a file is there and is these parts, one after the other.
pub fn is_text(file: Option<&[u8]>, parts: &[&str]) -> bool {
    let Some(mut rest) = file else {
        return false;
    };
    for part in parts {
        match rest.strip_prefix(part.as_bytes()) {
            Some(left) => rest = left,
            None => return false,
        }
    }
    rest.is_empty()
}
