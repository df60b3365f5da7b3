//! Hosts in memory.

use dpl_host::{Failing, MemHost};
use dpl_test_sample::{Rectangle, bars, host};
use std::alloc::{AllocError, Global};

/// Adds a file of this name with these bytes.
fn add_file(
    alloc: Global,
    files: &mut Vec<(&'static str, Vec<u8>)>,
    name: &'static str,
    bytes: &[u8],
) -> Result<(), AllocError> {
    let bytes = Vec::from_slice(alloc, bytes)?;
    files.push((name, bytes))?;
    Ok(())
}

/// A host with these files, of which a call moves `step` bytes at most, and the listed calls fail.
pub fn host_with(
    alloc: Global,
    files: &[(&'static str, &[u8])],
    step: usize,
    failing: &[Failing],
) -> Result<MemHost, AllocError> {
    let mut named = Vec::new(alloc);
    for &(name, bytes) in files {
        add_file(alloc, &mut named, name, bytes)?;
    }
    let failing = Vec::from_slice(alloc, failing)?;
    host(alloc, named, step.max(1), failing)
}

/// A host with the file of a layer of these rectangles alone.
pub fn host_of_layer(alloc: Global, layer: &[Rectangle]) -> Result<MemHost, AllocError> {
    let layer = bars(alloc, layer)?;
    host_with(alloc, &[("in", layer.as_slice())], 4096, &[])
}
