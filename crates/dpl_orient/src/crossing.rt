//! Stitch zones between two components.
ghost use Rattle.std.specs.Prelude.{◌≡◌, ◌<◌, ◌+◌, length, IfOk};
ghost use Rattle.std.specs.List.Sorted.{IsPermutation, IsNonDecreasingBy};
ghost use Rattle.dpl_spec_split.specs.Colours.{differ};
ghost use Rattle.dpl_orient.specs.Chart.{rooted_at};
ghost use Rattle.dpl_orient.specs.Crossings.{crossing_between, crossing_at, is_across, crossings_at, HaveLater, crossings_of, AreGrouped, GoUp};

use crate::chart::{Rooted, is_odd_at, root_at};
use dpl_list::{Id, short_id};
use dpl_sort::sort_by_key;
use std::alloc::{AllocError, Global};

/// A stitch zone with its sides in two components, each named by its least piece.
#[derive(Clone, Copy, Drop)]
pub struct Crossing {
    pub later: Id,
    pub earlier: Id,
    /// Whether the sides differ while neither component is flipped.
    pub odd: bool,
}

/// The number of a zone that is a crossing, with the crossing's later component, by which they are sorted.
#[derive(Clone, Copy, Drop)]
pub struct Across {
    pub later: u32,
    pub zone: u32,
}

/// Whether two letters differ.
pub fn differs(a: bool, b: bool) -> bool
    ensures { result ≡ differ a b }
{
    a != b
}

/// The crossing of a zone between two pieces, where their roots differ.
fn between(chart: &[Rooted], s: Id, t: Id) -> Crossing
    ensures { result ≡ crossing_between (rooted_at chart.now s) (rooted_at chart.now t) }
{
    let s_root = root_at(chart, s);
    let t_root = root_at(chart, t);
    if t_root < s_root {
        Crossing {
            later: s_root,
            earlier: t_root,
            odd: differs(is_odd_at(chart, s), is_odd_at(chart, t)),
        }
    } else {
        Crossing {
            later: t_root,
            earlier: s_root,
            odd: differs(is_odd_at(chart, t), is_odd_at(chart, s)),
        }
    }
}

/// The crossing of the zone with this number, made from what the chart says of its sides. Past the last zone it is that
/// of piece 0 with itself.
pub fn crossing_at(chart: &[Rooted], sides: &[(Id, Id)], number: usize) -> Crossing
    ensures { result ≡ crossing_at chart.now sides.now number }
{
    match sides.get(number) {
        Some(side) => between(chart, side.0, side.1),
        None => between(chart, 0, 0),
    }
}

/// Whether the sides of a zone lie in two components.
pub fn is_across(chart: &[Rooted], side: (Id, Id)) -> bool
    ensures { result ≡ is_across chart.now side }
{
    root_at(chart, side.0) != root_at(chart, side.1)
}

/// How many of the zones with these sides are crossings.
pub fn crossing_count(chart: &[Rooted], sides: &[(Id, Id)]) -> usize
    ensures { result ≡ length (crossings_of chart.now sides.now) }
{
    let mut count = 0usize;
    for side in sides {
        if is_across(chart, *side) {
            count += 1;
        }
    }
    count
}

/// The crossings among zones with these sides. A zone or a later component of number 2^32 or more is refused as out of
/// memory, which so many zones or pieces would be.
fn listed(alloc: Global, chart: &[Rooted], sides: &[(Id, Id)]) -> Result<Vec<Across>, AllocError>
    ensures later { IfOk result (λ v. HaveLater chart.now sides.now v.items) }
    ensures crossings { IfOk result (λ v. crossings_at chart.now sides.now v.items ≡ crossings_of chart.now sides.now) }
{
    let mut across = Vec::with_capacity(alloc, crossing_count(chart, sides))?;
    for zone in 0..sides.len() {
        if is_across(chart, sides[zone]) {
            let later = short_id(crossing_at(chart, sides, zone).later)?;
            let zone = short_id(zone as Id)?;
            across.push(Across { later, zone })?;
        }
    }
    Ok(across)
}

/// Puts crossings in order of the later component.
fn group(across: &mut Vec<Across>)
    ensures same { IsPermutation across.old.items across.new.items }
    ensures grouped { IsNonDecreasingBy (λ a. a.later) across.new.items }
{
    sort_by_key(across, |a| a.later);
}

/// The crossings among zones with these sides, in order of the later component. A zone or a later component of number
/// 2^32 or more is refused as out of memory, which so many zones or pieces would be.
pub fn crossings(
    alloc: Global,
    chart: &[Rooted],
    sides: &[(Id, Id)],
) -> Result<Vec<Across>, AllocError>
    ensures same { IfOk result (λ v. IsPermutation (crossings_of chart.now sides.now) (crossings_at chart.now sides.now v.items)) }
    ensures grouped { IfOk result (λ v. AreGrouped (crossings_at chart.now sides.now v.items)) }
    ensures up { IfOk result (λ v. GoUp (crossings_at chart.now sides.now v.items)) }
{
    let mut across = listed(alloc, chart, sides)?;
    group(&mut across);
    Ok(across)
}
