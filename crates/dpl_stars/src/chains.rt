//! The arcs that leave each number of a graph.
ghost use Rattle.std.specs.Prelude.{◌≡◌, ◌+◌, ◌*◌, ◌^◌, ◌<◌, length, IfOk};
ghost use Rattle.dpl_stars.specs.Arcs.{arc_at, AreChains};
ghost use Rattle.dpl_stars.specs.Levels.{AreEdgesBelow};

use dpl_list::{Edge, Id};
use std::alloc::{AllocError, Global};

/// The arcs that leave each number, as chains.
///
/// Of `m` edges, edge `k` gives arc `k` from its smaller to its larger number, and arc `m + k` back. `last` has for each
/// number one more than the last arc that leaves it, `before` for each arc one more than the arc before it that leaves
/// the same number; 0 stands for none.
#[derive(Drop)]
pub struct Chains {
    pub last: Vec<usize>,
    pub before: Vec<usize>,
}

/// Where arc `k` leads from, and to.
pub fn arc(edges: &[Edge], k: usize) -> Edge
    requires { k < length edges.now + length edges.now }
    ensures { result ≡ arc_at edges.now k }
{
    if k < edges.len() {
        edges[k]
    } else {
        let (u, v) = edges[k - edges.len()];
        (v, u)
    }
}

/// The arcs of these edges as chains, in time linear in `n` and the number of edges.
pub fn chains_of(alloc: Global, n: Id, edges: &[Edge]) -> Result<Chains, AllocError>
    requires { AreEdgesBelow n edges.now }
    ensures { IfOk result (λ chains. AreChains edges.now n (length edges.now + length edges.now) chains.last.items chains.before.items) }
{
    let mut last = vec![in alloc; 0; n as usize]?;
    let mut before = Vec::with_capacity(alloc, edges.len() + edges.len())?;
    for k in 0..edges.len() + edges.len() {
        let (from, _) = arc(edges, k);
        before.push(last[from as usize])?;
        last[from as usize] = k + 1;
    }
    Ok(Chains { last, before })
}
