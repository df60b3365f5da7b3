//! The type of summaries.
use crate::list::StarList;

/// The summary of an edge list, which says how a graph's components are two-coloured.
#[derive(Drop)]
pub enum Joined {
    /// The graph has no odd cycle: a row for each piece that an edge touches.
    Stars(StarList),
    /// The graph has an odd cycle.
    Odd,
}
