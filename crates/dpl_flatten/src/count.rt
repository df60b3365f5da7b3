//! How many points a layer has in all its placements, counted structure by structure.

ghost use Rattle.std.specs.Prelude.{◌≡◌, ◌<◌, ◌≤◌, ◌*◌, ◌^◌, ◌/◌, length, min, replicate, slice_set, sum_by, slice_index, if◌then◌else◌, IfOk};
ghost use Rattle.std.specs.List.{All};
ghost use Rattle.dpl_spec_format.specs.Tree.{elements_at};
ghost use Rattle.dpl_syntax.specs.Elements.{body_seen, element_seen};
ghost use Rattle.dpl_spec_layout.specs.Elements.{point_count, columns_of, rows_of};
ghost use Rattle.dpl_spec_layout.specs.Points.{points_by};
ghost use Rattle.dpl_flatten.specs.Links.{IsLinked, IsOrdered};
ghost use Rattle.dpl_flatten.specs.Totals.{ceiling, AreTotals};

use crate::links::{ReachedGraph, target};
use dpl_links::Order;
use dpl_reference::{Role, role_of};
use dpl_spec_layout::Layer;
use dpl_syntax::{Body, Element, Library};
use std::alloc::{AllocError, Global};

/// Counts stop there, past the most points that a layer may have.
const CEILING: u64 = 4_294_967_295;

/// How many points an element counts on the chosen layer.
fn own_points(chosen: Layer, body: &Body<'_>) -> u64
    ensures value { result ≡ point_count chosen (body_seen body.now) }
    ensures small { result < 2 ^ 61 }
{
    match role_of(chosen, body) {
        Role::Boundary { xy } => xy.len() as u64 / 8,
        Role::Path { style, xy } if style.width != 0 => xy.len() as u64 / 8,
        _ => 0,
    }
}

/// How many copies a reference places, and 0 where an element is none.
fn copy_count(body: &Body<'_>) -> u64
    ensures value { result ≡ columns_of (body_seen body.now) * rows_of (body_seen body.now) }
    ensures small { result ≤ 2 ^ 30 }
{
    match *body {
        Body::Sref { .. } => 1,
        Body::Aref { columns, rows, .. } => columns.unsigned_abs() as u64
            * rows.unsigned_abs() as u64,
        _ => 0,
    }
}

/// How many points an element places, where its reference leads to a structure with this total.
fn element_points(lib: &Library<'_>, chosen: Layer, element: &Element<'_>, totals: &[u32]) -> u64
    requires { All (λ n. n ≤ ceiling) totals.now }
    ensures value { result ≡ points_by lib.now chosen (λ j. slice_index totals.now j) (element_seen element.now) }
    ensures small { result < 2 ^ 63 }
{
    let own = own_points(chosen, &element.body);
    let below = match target(lib, element) {
        Some(number) => total_at(totals, number),
        None => 0,
    };
    own + copy_count(&element.body) * below
}

/// How many points a structure places, up to the ceiling.
fn total_of(lib: &Library<'_>, chosen: Layer, structure: u32, totals: &[u32]) -> u32
    requires known { structure < length lib.now.structures }
    requires totals { All (λ n. n ≤ ceiling) totals.now }
    ensures { result ≡ min (sum_by (points_by lib.now chosen (λ j. slice_index totals.now j)) (elements_at lib.now structure)) ceiling }
{
    let mut total = 0u64;
    for element in lib.elements(structure) {
        total = (total + element_points(lib, chosen, element, totals)).min(CEILING);
    }
    total as u32
}

/// The total of a structure, and 0 past the end.
pub(crate) fn total_at(totals: &[u32], structure: u32) -> u64
    requires { All (λ n. n ≤ ceiling) totals.now }
    ensures value { result ≡ slice_index totals.now structure }
    ensures small { result ≤ ceiling }
{
    match totals.get(structure as usize) {
        Some(total) => *total as u64,
        None => 0,
    }
}

/// Sets the total of a structure.
fn set_total(lib: &Library<'_>, chosen: Layer, structure: u32, totals: &mut Vec<u32>)
    requires known { structure < length lib.now.structures }
    requires each { length totals.old.items ≡ length lib.now.structures }
    requires totals { All (λ n. n ≤ ceiling) totals.old.items }
    ensures { totals.new.items ≡ slice_set totals.old.items structure (min (sum_by (points_by lib.now chosen (λ j. slice_index totals.old.items j)) (elements_at lib.now structure)) ceiling) }
{
    let total = total_of(lib, chosen, structure, totals);
    totals[structure as usize] = total;
}

/// How many points each marked structure places, up to the ceiling. In the order each structure comes behind those that
/// it refers to.
pub(crate) fn totals(
    alloc: Global,
    lib: &Library<'_>,
    chosen: Layer,
    links: &ReachedGraph<'_>,
    order: &Order,
) -> Result<Vec<u32>, AllocError>
    requires links { IsLinked lib.now links.now.graph.now links.now.marks.now }
    requires order { IsOrdered lib.now links.now.graph.now links.now.marks.now order.now.levels.items order.now.vertices.items }
    requires marks { length links.now.marks.now ≡ length lib.now.structures }
    ensures { IfOk result (λ v. AreTotals lib.now chosen links.now.marks.now v.items) }
{
    let mut totals = zeros(alloc, lib.count() as usize)?;
    for structure in &order.vertices {
        set_total(lib, chosen, *structure, &mut totals);
    }
    Ok(totals)
}

/// So many totals of 0.
fn zeros(alloc: Global, count: usize) -> Result<Vec<u32>, AllocError>
    ensures { IfOk result (λ v. v.items ≡ replicate count 0) }
{
    vec![in alloc; 0; count]
}
