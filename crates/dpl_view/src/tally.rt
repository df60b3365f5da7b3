//! How many elements of each kind lie on each layer, in one pass over a file.
ghost use Rattle.std.specs.Prelude.{◌≡◌, ℕ, IfOk, OnOk, cond, length, map};
ghost use Rattle.std.specs.List.{Contains};
ghost use Rattle.dpl_spec_format.specs.Tree.{Element as TreeElement, elements_at};
ghost use Rattle.dpl_syntax.specs.Elements.{body_seen, element_seen};
ghost use Rattle.dpl_view.specs.Layers.{AreMore, count_in, count_of};
ghost use Rattle.dpl_view.specs.Ranks.{AreEntries, AreInOrder, IsEntryOf, IsListed};

use crate::counts::{Counts, LayerCounts};
use crate::layers::{layer_at, layer_of, rank};
use dpl_syntax::{Body, Element, Library};
use std::alloc::{AllocError, Global};

/// The layer at a place, with no element yet.
fn empty_entry(rank: u32) -> LayerCounts
    ensures { IsEntryOf (λ test. 0) rank result }
{
    LayerCounts {
        layer: layer_at(rank),
        counts: Counts::none(),
    }
}

/// The layers at these places, with no element yet.
pub(crate) fn empty_table(alloc: Global, ranks: &[u32]) -> Result<Vec<LayerCounts>, AllocError>
    ensures { IfOk result (λ v. AreEntries (λ test. 0) ranks.now (length ranks.now) v.items) }
{
    let mut table = Vec::new(alloc);
    for rank in ranks {
        let entry = empty_entry(*rank);
        table.push(entry)?;
    }
    Ok(table)
}

/// Counts one element more where its layer stands, if it lies on one.
///
/// The error: out of memory, or a kind of which 2^64 - 1 are counted has one more, for which no memory is there.
fn tally(ranks: &[u32], table: &mut [LayerCounts], body: &Body<'_>) -> Result<(), AllocError>
    requires order { AreInOrder ranks.now table.old }
    requires listed { IsListed ranks.now (body_seen body.now) }
    ensures { OnOk result (AreMore (λ test. cond (test (body_seen body.now)) 1 0) table.old table.new) }
{
    let Some(layer) = layer_of(body) else {
        return Ok(());
    };
    let place = rank(layer);
    let Ok(k) = ranks.binary_search(&place) else {
        unreachable!()
    };
    let entry = table[k];
    if !entry.counts.has_room() {
        return Err(AllocError);
    }
    let counts = entry.counts.with(entry.layer, body);
    table[k] = LayerCounts {
        layer: entry.layer,
        counts,
    };
    Ok(())
}

/// Counts each of these elements.
fn tally_all(
    ranks: &[u32],
    table: &mut [LayerCounts],
    elements: &[Element<'_>],
) -> Result<(), AllocError>
    requires order { AreInOrder ranks.now table.old }
    requires listed { (e : TreeElement) → Contains (map element_seen elements.now) e → IsListed ranks.now e.body }
    ensures { OnOk result (AreMore (λ test. count_in test (map element_seen elements.now)) table.old table.new) }
{
    for element in elements {
        tally(ranks, table, &element.body)?;
    }
    Ok(())
}

/// Counts each element of a file, whatever structure it stands in.
///
/// The error: out of memory, or a kind of which 2^64 - 1 are counted has one more, for which no memory is there.
pub(crate) fn tally_file(
    lib: &Library<'_>,
    ranks: &[u32],
    table: &mut [LayerCounts],
) -> Result<(), AllocError>
    requires order { AreInOrder ranks.now table.old }
    requires listed { (k : ℕ) (e : TreeElement) → Contains (elements_at lib.now k) e → IsListed ranks.now e.body }
    ensures { OnOk result (AreMore (count_of lib.now) table.old table.new) }
{
    for structure in 0..lib.count() {
        tally_all(ranks, table, lib.elements(structure))?;
    }
    Ok(())
}
