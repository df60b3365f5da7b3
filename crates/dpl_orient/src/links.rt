//! Stitch zones between two components, as seen from each of the two.
ghost use Rattle.std.specs.Prelude.{◌≡◌, ◌<◌, length, map, filter, ◌==◌, IfOk, slice_index_or, false};
ghost use Rattle.std.specs.List.Sorted.{IsPermutation, IsNonDecreasingBy};
ghost use Rattle.dpl_orient.specs.Masks.{is_second};
ghost use Rattle.dpl_orient.specs.Rooted.{AreSidesBelow};
ghost use Rattle.dpl_orient.specs.Chart.{AreLow};
ghost use Rattle.dpl_orient.specs.Links.{link_of, links_of, AreLinksBelow, differs_by, held_root};

use crate::chart::Rooted;
use crate::crossing::{crossing_count, differs, is_across};
use crate::mask::{Mask, is_second};
use dpl_list::Id;
use dpl_sort::sort_by_key;
use std::alloc::{AllocError, Global};

/// A stitch zone with its sides in two components, as seen from one of them. Both are named by their least piece.
#[derive(Clone, Copy, Drop)]
pub struct Link {
    pub from: u32,
    pub to: u32,
    /// Whether the sides differ while no component is flipped.
    pub odd: bool,
}

/// The link of a zone between two pieces, from the component of the first.
fn link_of(chart: &[Rooted], masks: &[Mask], from: Id, to: Id) -> Link
    requires first { from < length chart.now }
    requires second { to < length chart.now }
    requires each { length masks.now ≡ length chart.now }
    ensures { result ≡ link_of chart.now (map is_second masks.now) from to }
{
    let odd = differs(
        is_second(masks[from as usize]),
        is_second(masks[to as usize]),
    );
    Link {
        from: chart[from as usize].root,
        to: chart[to as usize].root,
        odd,
    }
}

/// The links of zones with these sides: two of each zone between two components.
pub fn links(
    alloc: Global,
    chart: &[Rooted],
    sides: &[(Id, Id)],
    masks: &[Mask],
) -> Result<Vec<Link>, AllocError>
    requires low { AreLow chart.now }
    requires sides { AreSidesBelow (length chart.now) sides.now }
    requires each { length masks.now ≡ length chart.now }
    ensures links { IfOk result (λ v. v.items ≡ links_of chart.now (map is_second masks.now) sides.now) }
    ensures below { IfOk result (λ v. AreLinksBelow (length chart.now) v.items) }
{
    let mut links = Vec::with_capacity(alloc, crossing_count(chart, sides).saturating_mul(2))?;
    for side in sides {
        if is_across(chart, *side) {
            links.push(link_of(chart, masks, side.0, side.1))?;
            links.push(link_of(chart, masks, side.1, side.0))?;
        }
    }
    Ok(links)
}

/// Puts links in order of the component that they lead from.
pub fn group(links: &mut Vec<Link>)
    ensures same { IsPermutation links.old.items links.new.items }
    ensures ordered { IsNonDecreasingBy (λ l. l.from) links.new.items }
{
    sort_by_key(links, |link| link.from);
}

/// The links from a component, where they are in order.
pub fn links_from(links: &[Link], root: u32) -> &[Link]
    requires { IsNonDecreasingBy (λ l. l.from) links.now }
    ensures { result.now ≡ filter (λ l. l.from == root) links.now }
{
    let start = links.partition_point(|link| link.from < root);
    let end = links.partition_point(|link| link.from <= root);
    &links[start..end]
}

/// Whether a component is flipped. One past the end of the list isn't.
pub fn is_flipped(flips: &[bool], root: u32) -> bool
    ensures { result ≡ slice_index_or flips.now root false }
{
    match flips.get(root as usize) {
        Some(flip) => *flip,
        None => false,
    }
}

/// Whether the sides of a zone differ, where these components are flipped.
pub fn differs_by(flips: &[bool], link: &Link) -> bool
    ensures { result ≡ differs_by flips.now link.now }
{
    differs(
        link.odd,
        differs(is_flipped(flips, link.from), is_flipped(flips, link.to)),
    )
}

/// The component of the fixed piece, which isn't flipped.
pub fn held_root(chart: &[Rooted], fixed: Option<Id>) -> Option<u32>
    ensures { result ≡ held_root chart.now fixed }
{
    match fixed {
        Some(piece) => chart.get(piece as usize).map(|rooted| rooted.root),
        None => None,
    }
}
