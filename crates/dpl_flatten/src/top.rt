//! The structure at which a layout begins.

ghost use Rattle.std.specs.Prelude.{◌<◌, length, Some, None, IfOk, IfErr};
ghost use Rattle.std.specs.Option.{option_copied};
ghost use Rattle.dpl_spec_layout.specs.Structures.{AreRoots, IsTop, IsTopFault};

use crate::links::graph_of;
use dpl_links::find_sources;
use dpl_spec_layout::TopFault;
use dpl_syntax::Library;
use std::alloc::{AllocError, Global};

/// The structure of this name.
fn named_top(lib: &Library<'_>, name: &str) -> Result<u32, TopFault>
    ensures top { IfOk result (λ k. IsTop lib.now (Some name.now) k) }
    ensures known { IfOk result (λ k. k < length lib.now.structures) }
    ensures fault { IfErr result (λ f. IsTopFault lib.now (Some name.now) f) }
{
    match lib.structure(name.as_bytes()) {
        Some(number) => Ok(number),
        None => Err(TopFault::NoTop),
    }
}

/// The numbers of the structures that no reference names, in the order of the file.
pub fn roots(alloc: Global, lib: &Library<'_>) -> Result<Vec<u32>, AllocError>
    ensures { IfOk result (λ v. AreRoots lib.now v.items) }
{
    let graph = graph_of(alloc, lib)?;
    find_sources(alloc, graph.as_slice())
}

/// The only structure that no reference names.
fn only_root(alloc: Global, lib: &Library<'_>) -> Result<u32, TopFault>
    ensures top { IfOk result (λ k. IsTop lib.now None k) }
    ensures known { IfOk result (λ k. k < length lib.now.structures) }
    ensures fault { IfErr result (λ f. IsTopFault lib.now None f) }
{
    let roots = roots(alloc, lib)?;
    match roots.as_slice() {
        [] => Err(TopFault::NoTop),
        [top] => Ok(*top),
        several => Err(TopFault::ManyTops {
            count: several.len() as u64,
        }),
    }
}

/// The number of the top structure: the structure named `name`, or without a name the only one that no reference of the
/// file names.
///
/// # Errors
/// `NoTop` exactly where there is none, `ManyTops` exactly where there are several; `NoMemory`.
pub fn top_of(alloc: Global, lib: &Library<'_>, name: Option<&str>) -> Result<u32, TopFault>
    ensures top { IfOk result (λ k. IsTop lib.now (option_copied name.entry) k) }
    ensures known { IfOk result (λ k. k < length lib.now.structures) }
    ensures fault { IfErr result (λ f. IsTopFault lib.now (option_copied name.entry) f) }
{
    match name {
        Some(name) => named_top(lib, name),
        None => only_root(alloc, lib),
    }
}
