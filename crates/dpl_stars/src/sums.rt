//! The summary of an edge list, and the summary of the edges of several summaries.
ghost use Rattle.std.specs.Prelude.{◌≡◌, IfOk, OnOk, MatchOption, [], IsTrue, ◌↔◌};
ghost use Rattle.std.specs.List.{Contains};
ghost use Rattle.dpl_stars.specs.Links.{AddsLinks, StandFor};
ghost use Rattle.dpl_stars.specs.Sums.{AreEdgePairs, Sums, SumsAll, SumsBoth, IsTheSummaryOfBoth, IsOneSummary};
ghost use Rattle.dpl_stars.specs.declared.joined.Joined.TheVariants.{Odd};

use crate::joined::Joined;
use crate::levels::levels_of;
use crate::links::links;
use crate::list::StarList;
use crate::places::{Places, placed};
use crate::rows::{is_levelled, rows};
use crate::touched::touched;
use dpl_list::{Edge, Id};
use std::alloc::{AllocError, Global};

/// The summary of a list of edges: where they have no odd cycle, for each piece that one of them touches the least
/// piece of its component, and whether its distance to that piece is odd.
pub fn stars(alloc: Global, edges: &[Edge]) -> Result<Joined, AllocError>
    requires { AreEdgePairs edges.now }
    ensures { IfOk result (λ joined. Sums edges.now joined) }
{
    let places = Places::of(alloc, touched(alloc, edges)?)?;
    let placed = placed(alloc, &places, edges)?;
    let pieces = places.pieces();
    let levels = levels_of(alloc, pieces.len() as Id, &placed)?;
    if is_levelled(&placed, &levels.levels) {
        return Ok(Joined::Odd);
    }
    let rows = rows(alloc, pieces, &levels.roots, &levels.levels)?;
    Ok(Joined::Stars(StarList::of(rows)))
}

/// The summary of the edges of two summaries.
pub fn merge(alloc: Global, one: &Joined, other: &Joined) -> Result<Joined, AllocError>
    ensures sums { IfOk result (λ joined. SumsBoth one.now other.now joined) }
    ensures same { IfOk result (λ joined. IsTheSummaryOfBoth one.now other.now joined) }
{
    let Joined::Stars(rows) = one else {
        return Ok(Joined::Odd);
    };
    let Joined::Stars(others) = other else {
        return Ok(Joined::Odd);
    };
    let mut edges = links(alloc, rows.items())?;
    let more = links(alloc, others.items())?;
    edges.extend_from_slice(&more)?;
    stars(alloc, &edges)
}

/// Adds edges that stand for the rows of a summary.
fn add_links(alloc: Global, edges: &mut Vec<Edge>, rows: &StarList) -> Result<(), AllocError>
    ensures { OnOk result (AddsLinks rows.now edges.old.items edges.new.items) }
{
    let more = links(alloc, rows.items())?;
    edges.extend_from_slice(&more)
}

/// Edges that stand for the rows of all summaries, where none of these has an odd cycle.
fn all_links(alloc: Global, sums: &[Joined]) -> Result<Option<Vec<Edge>>, AllocError>
    ensures { IfOk result (λ found. MatchOption found (Contains sums.now Odd) (λ v. StandFor sums.now v.items)) }
{
    let mut edges = Vec::new(alloc);
    for sum in sums {
        let Joined::Stars(rows) = sum else {
            return Ok(None);
        };
        add_links(alloc, &mut edges, rows)?;
    }
    Ok(Some(edges))
}

/// The summary of the edges of all summaries together, in one pass over their rows.
pub fn merge_all(alloc: Global, sums: &[Joined]) -> Result<Joined, AllocError>
    ensures { IfOk result (λ all. SumsAll sums.now all) }
{
    match all_links(alloc, sums)? {
        Some(edges) => stars(alloc, &edges),
        None => Ok(Joined::Odd),
    }
}

/// A list of edges has at most one summary.
pub fn one_summary()
    ensures { IsOneSummary }
{}

impl Joined {
    /// The summary of no edges.
    pub fn new(alloc: Global) -> Joined
        ensures { Sums [] result }
    {
        Joined::Stars(StarList::new(alloc))
    }

    /// Whether the graph has an odd cycle.
    pub fn is_odd(&self) -> bool
        ensures { IsTrue result ↔ (self.now ≡ Odd) }
    {
        matches!(self, Joined::Odd)
    }

    /// The same summary once more.
    pub fn copy(&self, alloc: Global) -> Result<Joined, AllocError>
        ensures { IfOk result (λ joined. joined ≡ self.now) }
    {
        match self {
            Joined::Stars(rows) => Ok(Joined::Stars(rows.copy(alloc)?)),
            Joined::Odd => Ok(Joined::Odd),
        }
    }
}
