//! The gains of components, listed.
ghost use Rattle.std.specs.Prelude.{◌≡◌, ◌≤◌, ◌<◌, ◌↔◌, ℕ, List, Option, IfOk, IfSome, IfNone, length};
ghost use Rattle.std.specs.List.{AllPairs, Contains};
ghost use Rattle.dpl_spec_split.specs.declared.Rect.{Rect};
ghost use Rattle.dpl_spec_split.specs.declared.Spacing.{Spacing};
ghost use Rattle.dpl_spec_split.specs.Marks.{Marks};
ghost use Rattle.dpl_cert.specs.declared.cert.Gain.{Gain};
ghost use Rattle.dpl_piece.specs.View.{IsMarkedSet, cut_view};
ghost use Rattle.dpl_spec_verdict.specs.Gains.{AreGainsOf, AreRootsOf};
ghost use Rattle.dpl_gains.specs.Tallies.{IsListed};

use crate::held::held_roots;
use crate::roots::roots_of;
use crate::tallies::{Tally, tallies_of};
use dpl_base::{Id, Spacing};
use dpl_cert::Gain;
use dpl_piece::Pieces;
use dpl_slabs::Slabs;
use std::alloc::{AllocError, Global};

/// The gain of a component, if the piece is its least, it isn't held, and some zone is between it and another.
fn gain_at(roots: &[Id], held: &[bool], tallies: &[Tally], piece: usize) -> Option<Gain>
    requires within { piece < length roots.now }
    requires held { length held.now ≡ length roots.now }
    requires tallies { length tallies.now ≡ length roots.now }
    ensures some { IfSome result (λ g. IsListed roots.now held.now tallies.now g) }
    ensures at { IfSome result (λ g. g.piece ≡ piece) }
    ensures none { IfNone result ((g : Gain) → g.piece ≡ piece → ¬ IsListed roots.now held.now tallies.now g) }
{
    if roots[piece] != piece as Id {
        return None;
    }
    if held[piece] {
        return None;
    }
    let Tally { d, s } = tallies[piece];
    if d == 0 && s == 0 {
        return None;
    }
    Some(Gain {
        piece: piece as u64,
        d,
        s,
    })
}

/// The gains of all components that aren't held, by rising least piece.
fn listed(
    alloc: Global,
    roots: &[Id],
    held: &[bool],
    tallies: &[Tally],
) -> Result<Vec<Gain>, AllocError>
    requires held { length held.now ≡ length roots.now }
    requires tallies { length tallies.now ≡ length roots.now }
    ensures ordered { IfOk result (λ v. AllPairs (λ (g h : Gain). g.piece < h.piece) v.items) }
    ensures exactly { IfOk result (λ v. (g : Gain) → Contains v.items g ↔ IsListed roots.now held.now tallies.now g) }
{
    let mut gains = Vec::new(alloc);
    for piece in 0..roots.len() {
        if let Some(gain) = gain_at(roots, held, tallies, piece) {
            gains.push(gain)?;
        }
    }
    Ok(gains)
}

/// The gains of the components of a cut layer's pieces that have these letters, by rising least piece, where `roots` has the least piece of each piece's component: of each component without a piece that has a marked square, and between which and others some zones are.
///
/// The error: out of memory.
pub fn gains_by_roots(
    alloc: Global,
    pieces: &Pieces,
    roots: &[Id],
    letters: &[bool],
    marked: &Slabs,
) -> Result<Vec<Gain>, AllocError>
    requires roots { (spacing : Spacing) × AreRootsOf spacing pieces.now.parts pieces.now.owners roots.now }
    requires each { length letters.now ≡ length pieces.now.parts }
    ensures { (spacing : Spacing) → AreRootsOf spacing pieces.now.parts pieces.now.owners roots.now → (features : List (List Rect)) (marks : Option Marks) → IsMarkedSet marked.now marks → IfOk result (λ v. AreGainsOf marks spacing (cut_view features pieces.now) letters.now v.items) }
{
    let held = held_roots(alloc, pieces.parts().items(), roots, marked)?;
    let tallies = tallies_of(alloc, roots, letters, pieces.sides())?;
    listed(alloc, roots, &held, &tallies)
}

/// The same, where the components aren't known yet: all conflicts of the pieces are found for them.
///
/// The error: out of memory.
pub fn gains_of(
    alloc: Global,
    pieces: &Pieces,
    letters: &[bool],
    marked: &Slabs,
    spacing: Spacing,
) -> Result<Vec<Gain>, AllocError>
    requires corner { spacing.corner ≤ spacing.rule }
    requires each { length letters.now ≡ length pieces.now.parts }
    ensures { (features : List (List Rect)) (marks : Option Marks) → IsMarkedSet marked.now marks → IfOk result (λ v. AreGainsOf marks spacing (cut_view features pieces.now) letters.now v.items) }
{
    let roots = roots_of(alloc, pieces, spacing)?;
    gains_by_roots(alloc, pieces, &roots, letters, marked)
}
