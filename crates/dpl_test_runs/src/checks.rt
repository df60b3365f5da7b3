//! A check of files in memory, and what it says.

use crate::splits::answer;
use dpl_host::MemHost;
use dpl_run::Status;
use std::alloc::{AllocError, Global};
use std::sync::Wait;
use std::thread::Threads;

/// A check of layer 1 with a rule of 30 and an overlap of 10.
pub const CHECK: &str = "dpl check --layer 1 --rule 30 --overlap 10 in out cert";

/// The certificate of one bar, behind its rule.
pub const ONE_BAR: &str = "features 1 pieces 1 zones 0 stitches 0\npiece 0 A 0 0\nend\n";

/// Whether the line ends so and all that the host was told is this text.
pub fn says<R: Threads + Wait + Sync>(
    rt: &R,
    alloc: Global,
    line: &str,
    host: &mut MemHost,
    status: Status,
    text: &str,
) -> Result<bool, AllocError> {
    let ended = answer(rt, alloc, line, host)?;
    Ok(ended == status && host.said() == text.as_bytes())
}

/// The bytes of a text in parts.
pub fn text(alloc: Global, parts: &[&str]) -> Result<Vec<u8>, AllocError> {
    let mut out = Vec::new(alloc);
    for part in parts {
        out.extend_from_slice(part.as_bytes())?;
    }
    Ok(out)
}
