//! What the pieces have in a window.
ghost use Rattle.std.specs.Prelude.{◌≡◌, ◌+◌, ◌<◌, ◌≤◌, ◌↔◌, IfOk, IsTrue, length};
ghost use Rattle.std.specs.List.{All};
ghost use Rattle.dpl_spec_split.specs.declared.Rect.{Rect};
ghost use Rattle.dpl_spec_split.specs.declared.Pt.{Pt};
ghost use Rattle.dpl_spec_split.specs.Slabs.{IsSolid};
ghost use Rattle.dpl_spec_split.specs.Squares.{Covers};
ghost use Rattle.dpl_slabs.specs.Parts.{AreParts, union_of};
ghost use Rattle.dpl_edges.specs.Meetings.{HaveCommon, IsWhole};
ghost use Rattle.dpl_session.specs.Windows.{AreLabels, AreNames, AreWhole, HaveFirsts, IsFirstWith, IsWindowOf, owner_at};

use crate::index::Index;
use dpl_base::{Id, Listed, Rect, WideRect};
use dpl_slabs::Slabs;
use std::alloc::{AllocError, Global};

/// The canonical slabs of all squares of pieces in a window, the piece that each lies in, and for each the number of the first slab whose piece has the same feature.
#[derive(Drop)]
pub(crate) struct Window {
    pub(crate) slabs: Slabs,
    pub(crate) names: Listed<Id>,
    pub(crate) labels: Listed<Id>,
}

/// The number of the piece that each of some slabs lies in.
fn names_of(alloc: Global, index: &Index, slabs: &[Rect]) -> Result<Vec<Id>, AllocError>
    requires whole { AreWhole index.now.parts }
    requires solid { All IsSolid slabs.now }
    requires inside { (p : Pt) → Covers slabs.now p → union_of index.now.parts p }
    ensures { IfOk result (λ v. AreNames index.now.parts slabs.now v.items) }
{
    let mut names = Vec::with_capacity(alloc, slabs.len())?;
    for r in slabs {
        names.push(index.piece_in(r))?;
    }
    Ok(names)
}

/// Whether number `k` is one below `i`, and its name has this owner.
fn is_earlier(names: &[Id], owners: &[Id], k: Id, i: usize, owner: Id) -> bool
    requires names { All (λ k. k < length owners.now) names.now }
    requires within { i ≤ length names.now }
    ensures { IsTrue result ↔ ((k < i) × (owner_at owners.now names.now k ≡ owner)) }
{
    if k >= i as Id {
        return false;
    }
    owners[names[k as usize] as usize] == owner
}

/// The number of the first name with the same owner as name `i`, where `first` has that of each name before.
fn label_of(names: &[Id], owners: &[Id], first: &mut [Id], i: usize) -> Id
    requires names { All (λ k. k < length owners.now) names.now }
    requires owners { All (λ k. k < length first.old) owners.now }
    requires known { i < length names.now }
    requires firsts { HaveFirsts (owner_at owners.now names.now) first.old i }
    ensures label { IsFirstWith (owner_at owners.now names.now) i result }
    ensures firsts { HaveFirsts (owner_at owners.now names.now) first.new (i + 1) }
    ensures room { length first.new ≡ length first.old }
{
    let owner = owners[names[i] as usize];
    let k = first[owner as usize];
    if is_earlier(names, owners, k, i, owner) {
        return k;
    }
    first[owner as usize] = i as Id;
    i as Id
}

/// For each name the number of the first one with the same owner. What `first` holds doesn't matter; it has a place for each owner.
fn labels_of(
    alloc: Global,
    names: &[Id],
    owners: &[Id],
    first: &mut [Id],
) -> Result<Vec<Id>, AllocError>
    requires names { All (λ k. k < length owners.now) names.now }
    requires owners { All (λ k. k < length first.old) owners.now }
    ensures labels { IfOk result (λ v. AreLabels (owner_at owners.now names.now) (length names.now) v.items) }
    ensures room { length first.new ≡ length first.old }
{
    let mut labels = Vec::with_capacity(alloc, names.len())?;
    for i in 0..names.len() {
        labels.push(label_of(names, owners, first, i))?;
    }
    Ok(labels)
}

/// What the pieces have in a window, which has some square that a layer may have. What `first` holds doesn't matter; it has a place for each feature.
///
/// The error: out of memory.
pub(crate) fn window_of(
    alloc: Global,
    index: &Index,
    window: &WideRect,
    first: &mut [Id],
) -> Result<Window, AllocError>
    requires whole { AreWhole index.now.parts }
    requires owners { All (λ k. k < length first.old) index.now.owners }
    requires solid { IsSolid window.now }
    requires common { (whole : Rect) → IsWhole whole → HaveCommon window.now whole }
    ensures window { IfOk result (IsWindowOf index.now.parts index.now.owners window.now) }
    ensures parts { IfOk result (λ _. AreParts index.now.parts) }
    ensures room { length first.new ≡ length first.old }
{
    let slabs = index.squares_in(alloc, window)?;
    let names = names_of(alloc, index, slabs.rects())?;
    let labels = labels_of(alloc, &names, index.owners(), first)?;
    Ok(Window {
        slabs,
        names: Listed::of(names),
        labels: Listed::of(labels),
    })
}
