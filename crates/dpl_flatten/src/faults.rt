//! The faults that are tried before anything is placed, in their order.

ghost use Rattle.std.specs.Prelude.{◌≡◌, ◌<◌, ◌^◌, length, IfOk, IfErr, OnOk};
ghost use Rattle.dpl_spec_layout.specs.Faults.{IsFirst, IsFirstFault, IsNowhere, IsMissing, IsOnCycle, IsWhole, IsSound, IsSmall};
ghost use Rattle.dpl_spec_layout.specs.declared.Layer.{Layer as ChosenLayer};
ghost use Rattle.dpl_links.specs.Graph.{AreReached};
ghost use Rattle.dpl_links.specs.Order.{HasCycle};
ghost use Rattle.dpl_flatten.specs.Links.{IsLinked, IsOrdered};
ghost use Rattle.dpl_flatten.specs.Totals.{AreTotals};

use crate::count::totals;
use crate::first::{Wanted, first};
use crate::links::ReachedGraph;
use crate::refused::refusal;
use dpl_links::{Order, find_levels, find_order};
use dpl_spec_layout::{FlattenFault, Layer};
use dpl_syntax::Library;
use std::alloc::{AllocError, Global};

/// The most points that a layer may have.
const MOST_POINTS: u32 = 16_777_216;

/// Refuses a layout in which a reference names no structure, whatever the layer.
pub(crate) fn find_missing(
    alloc: Global,
    lib: &Library<'_>,
    top: u32,
    links: &ReachedGraph<'_>,
) -> Result<(), FlattenFault>
    requires links { IsLinked lib.now links.now.graph.now links.now.marks.now }
    requires reached { AreReached links.now.graph.now top links.now.marks.now }
    ensures complete { OnOk result (IsNowhere lib.now top (IsMissing lib.now)) }
    ensures fault { IfErr result (λ f. (layer : ChosenLayer) → IsFirstFault lib.now top layer f) }
{
    let found = first(alloc, lib, links, Wanted::Missing)?;
    match found {
        Some(at) => Err(FlattenFault::MissingStructure { at }),
        None => Ok(()),
    }
}

/// The least offset of a reference on a cycle.
fn recursive_at(
    alloc: Global,
    lib: &Library<'_>,
    top: u32,
    links: &ReachedGraph<'_>,
) -> Result<usize, AllocError>
    requires links { IsLinked lib.now links.now.graph.now links.now.marks.now }
    requires reached { AreReached links.now.graph.now top links.now.marks.now }
    requires top { top < length lib.now.structures }
    requires cycle { HasCycle links.now.graph.now top }
    ensures { IfOk result (λ at. IsFirst lib.now top (IsOnCycle lib.now) at) }
{
    let levels = find_levels(alloc, links.graph, top)?;
    let found = first(alloc, lib, links, Wanted::Recursive { levels: &levels })?;
    match found {
        Some(at) => Ok(at),
        None => unreachable!(),
    }
}

/// Refuses a layout in which a reference lies on a cycle, whatever the layer; else gives the structures in an order in which every reference leads back.
pub(crate) fn find_recursion(
    alloc: Global,
    lib: &Library<'_>,
    top: u32,
    links: &ReachedGraph<'_>,
) -> Result<Order, FlattenFault>
    requires links { IsLinked lib.now links.now.graph.now links.now.marks.now }
    requires reached { AreReached links.now.graph.now top links.now.marks.now }
    requires few { length links.now.marks.now < 2 ^ 32 }
    requires top { top < length lib.now.structures }
    requires complete { IsNowhere lib.now top (IsMissing lib.now) }
    ensures whole { OnOk result (IsWhole lib.now top) }
    ensures order { IfOk result (λ o. IsOrdered lib.now links.now.graph.now links.now.marks.now o.levels.items o.vertices.items) }
    ensures fault { IfErr result (λ f. (layer : ChosenLayer) → IsFirstFault lib.now top layer f) }
{
    let order = find_order(alloc, links.graph, top)?;
    match order {
        Some(order) => Ok(order),
        None => {
            let at = recursive_at(alloc, lib, top, links)?;
            Err(FlattenFault::Recursion { at })
        }
    }
}

/// Refuses a layout with an element that is refused.
fn find_refused(
    alloc: Global,
    lib: &Library<'_>,
    top: u32,
    layer: Layer,
    links: &ReachedGraph<'_>,
) -> Result<(), FlattenFault>
    requires links { IsLinked lib.now links.now.graph.now links.now.marks.now }
    requires reached { AreReached links.now.graph.now top links.now.marks.now }
    requires whole { IsWhole lib.now top }
    ensures sound { OnOk result (IsSound lib.now top layer) }
    ensures fault { IfErr result (λ f. IsFirstFault lib.now top layer f) }
{
    let found = first(alloc, lib, links, Wanted::Refused { layer })?;
    match found {
        Some(at) => {
            let fault = refusal(alloc, lib, layer, links.marks, at)?;
            Err(fault)
        }
        None => Ok(()),
    }
}

/// The layer has no more points than it may have; gives what each structure places.
fn find_many(
    alloc: Global,
    lib: &Library<'_>,
    top: u32,
    layer: Layer,
    links: &ReachedGraph<'_>,
    order: &Order,
) -> Result<Vec<u32>, FlattenFault>
    requires links { IsLinked lib.now links.now.graph.now links.now.marks.now }
    requires reached { AreReached links.now.graph.now top links.now.marks.now }
    requires order { IsOrdered lib.now links.now.graph.now links.now.marks.now order.now.levels.items order.now.vertices.items }
    requires top { top < length lib.now.structures }
    requires sound { IsSound lib.now top layer }
    ensures small { OnOk result (IsSmall lib.now top layer) }
    ensures totals { IfOk result (λ v. AreTotals lib.now layer links.now.marks.now v.items) }
    ensures fault { IfErr result (λ f. IsFirstFault lib.now top layer f) }
{
    let counted = totals(alloc, lib, layer, links, order)?;
    if counted[top as usize] > MOST_POINTS {
        return Err(FlattenFault::TooManyPoints);
    }
    Ok(counted)
}

/// What is known of the structures of a layout that has none of the faults that are tried before the range.
#[derive(Drop)]
pub(crate) struct Survey {
    /// The structures, each behind those that it refers to.
    pub(crate) order: Order,
    /// How many points each structure places.
    pub(crate) totals: Vec<u32>,
}

/// None of the faults that are tried before the range.
pub(crate) fn find_faults(
    alloc: Global,
    lib: &Library<'_>,
    top: u32,
    layer: Layer,
    links: &ReachedGraph<'_>,
) -> Result<Survey, FlattenFault>
    requires links { IsLinked lib.now links.now.graph.now links.now.marks.now }
    requires reached { AreReached links.now.graph.now top links.now.marks.now }
    requires few { length links.now.marks.now < 2 ^ 32 }
    requires top { top < length lib.now.structures }
    ensures small { OnOk result (IsSmall lib.now top layer) }
    ensures order { IfOk result (λ s. IsOrdered lib.now links.now.graph.now links.now.marks.now s.order.levels.items s.order.vertices.items) }
    ensures totals { IfOk result (λ s. AreTotals lib.now layer links.now.marks.now s.totals.items) }
    ensures fault { IfErr result (λ f. IsFirstFault lib.now top layer f) }
{
    find_missing(alloc, lib, top, links)?;
    let order = find_recursion(alloc, lib, top, links)?;
    find_refused(alloc, lib, top, layer, links)?;
    let totals = find_many(alloc, lib, top, layer, links, &order)?;
    Ok(Survey { order, totals })
}
