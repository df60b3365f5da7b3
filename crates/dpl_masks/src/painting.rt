//! Which squares lie on which mask.
ghost use Rattle.std.specs.Prelude.{◌≡◌, ℕ, ◌<◌, ◌⊎◌, ◌++◌, ◌∷◌, [], false, true, map, IfOk, OnOk, length};
ghost use Rattle.std.specs.List.{All};
ghost use Rattle.dpl_spec_split.specs.Loops.{AreRectsWithin, farthest};
ghost use Rattle.dpl_spec_split.specs.Slabs.{AreSlabsOf};
ghost use Rattle.dpl_spec_split.specs.Colours.{AreStitches, differ, on_mask};
ghost use Rattle.dpl_orient.specs.Masks.{is_second};
ghost use Rattle.dpl_masks.specs.Painting.{AreMasksOf, AreMasksOfCut};
ghost use Rattle.dpl_masks.specs.Sheets.{AreInked, IsSheetTo, Puts, PutsOne, PutsUncut};

use crate::ink::{Ink, InkedPieces, inked_pieces, is_same};
use crate::pair::Masks;
use crate::rest::rest_of;
use crate::united::united;
use dpl_base::{Id, Rect};
use dpl_orient::{Colours, Mask};
use dpl_piece::{Cut, Pieces};
use dpl_slabs::Slabs;
use std::alloc::{AllocError, Global};
use std::thread::{Threads, join};

/// The masks of coloured pieces. A piece is on the mask of its letter, and a zone on the masks of both its sides.
///
/// The error: out of memory.
pub fn masks(alloc: Global, pieces: Pieces, colours: &Colours) -> Result<Masks, AllocError>
    requires { length colours.now ≡ length pieces.parts }
    ensures masks { IfOk result (AreMasksOf pieces colours.now) }
    ensures within { IfOk result (λ m. AreRectsWithin farthest m.a × AreRectsWithin farthest m.b) }
{
    let letters = colours.items();
    let inked = inked_pieces(alloc, pieces, letters)?;
    both(alloc, &inked, letters)
}

/// The masks of coloured pieces, as `masks` gives them. With two workers or more mask A is made in a thread of its own, if one can be made.
///
/// The error: out of memory.
pub fn masks_by<R: Threads>(
    rt: &R,
    alloc: Global,
    pieces: Pieces,
    colours: &Colours,
    workers: u32,
) -> Result<Masks, AllocError>
    requires { length colours.now ≡ length pieces.parts }
    ensures masks { IfOk result (AreMasksOf pieces colours.now) }
    ensures within { IfOk result (λ m. AreRectsWithin farthest m.a × AreRectsWithin farthest m.b) }
{
    if workers < 2 {
        return masks(alloc, pieces, colours);
    }
    let letters = colours.items();
    let inked = inked_pieces(alloc, pieces, letters)?;
    both_by(rt, alloc, &inked, letters)
}

/// Both masks, one after the other.
fn both(alloc: Global, inked: &InkedPieces, letters: &[Mask]) -> Result<Masks, AllocError>
    requires { AreInked inked.now.cut letters.now inked.now.inks.items }
    ensures { IfOk result (AreMasksOfCut inked.now.cut (map is_second letters.now)) }
{
    let a = mask_of(alloc, inked, letters, Mask::A)?;
    let b = mask_of(alloc, inked, letters, Mask::B)?;
    Ok(Masks { a, b })
}

/// Both masks, side by side.
fn both_by<R: Threads>(
    rt: &R,
    alloc: Global,
    inked: &InkedPieces,
    letters: &[Mask],
) -> Result<Masks, AllocError>
    requires { AreInked inked.now.cut letters.now inked.now.inks.items }
    ensures { IfOk result (AreMasksOfCut inked.now.cut (map is_second letters.now)) }
{
    let (a, b) = join(
        rt,
        || -> Result<Slabs, AllocError>
            requires { AreInked inked.now.cut letters.now inked.now.inks.items }
            ensures mask { IfOk result (AreSlabsOf (on_mask inked.entry.now.cut.parts inked.entry.now.cut.zones.items inked.entry.now.cut.sides.items (map is_second letters.entry.now) (is_second Mask.A))) }
            ensures within { IfOk result (AreRectsWithin farthest) }
        { mask_of(alloc, inked, letters, Mask::A) },
        || -> Result<Slabs, AllocError>
            requires { AreInked inked.now.cut letters.now inked.now.inks.items }
            ensures mask { IfOk result (AreSlabsOf (on_mask inked.entry.now.cut.parts inked.entry.now.cut.zones.items inked.entry.now.cut.sides.items (map is_second letters.entry.now) (is_second Mask.B))) }
            ensures within { IfOk result (AreRectsWithin farthest) }
        { mask_of(alloc, inked, letters, Mask::B) },
    );
    Ok(Masks { a: a?, b: b? })
}

/// What of the layer is on the mask of a letter. A piece is there if that is its own letter, and a zone if one of its sides has it. A feature that lies on one mask is put there as it is; what others have on the mask is united feature by feature.
fn mask_of(
    alloc: Global,
    inked: &InkedPieces,
    colours: &[Mask],
    letter: Mask,
) -> Result<Slabs, AllocError>
    requires { AreInked inked.now.cut colours.now inked.now.inks.items }
    ensures mask { IfOk result (AreSlabsOf (on_mask inked.now.cut.parts inked.now.cut.zones.items inked.now.cut.sides.items (map is_second colours.now) (is_second letter))) }
    ensures within { IfOk result (AreRectsWithin farthest) }
{
    let cut = &inked.cut;
    let inks = inked.inks.as_slice();
    let rest = rest_of(alloc, cut, inks, colours, letter)?;
    let mut rects = united(alloc, inked, colours, letter, &rest)?;
    drop(rest);
    add_uncut(&mut rects, cut, inks, colours, letter)?;
    add_wholes(&mut rects, cut, inks, colours, letter)?;
    Ok(Slabs::of_scattered(rects))
}

/// Puts slabs whose own letter is known on the mask of a letter, if that is the same.
fn put(rects: &mut Vec<Rect>, slabs: &[Rect], own: Mask, letter: Mask) -> Result<(), AllocError>
    ensures { OnOk result (Puts (is_second own) (is_second letter) slabs.now rects.old.items rects.new.items) }
{
    if is_same(own, letter) {
        rects.extend_from_slice(slabs)?;
    }
    Ok(())
}

/// Puts a piece on the mask of a letter, if that is its own and no zone cuts its feature.
fn put_uncut(
    rects: &mut Vec<Rect>,
    piece: &[Rect],
    own: Mask,
    letter: Mask,
    ink: Ink,
) -> Result<(), AllocError>
    ensures { OnOk result (PutsUncut ink (is_second own) (is_second letter) piece.now rects.old.items rects.new.items) }
{
    match ink {
        Ink::Uncut => put(rects, piece, own, letter),
        Ink::Blank => Ok(()),
        Ink::One(_) => Ok(()),
        Ink::Both => Ok(()),
    }
}

/// Puts the features without a zone that have a letter on its mask.
fn add_uncut(
    rects: &mut Vec<Rect>,
    cut: &Cut,
    inks: &[Ink],
    colours: &[Mask],
    letter: Mask,
) -> Result<(), AllocError>
    requires each { length colours.now ≡ length cut.now.parts }
    requires owners { length cut.now.owners.items ≡ length cut.now.parts }
    requires owned { All (λ k. k < length inks.now) cut.now.owners.items }
    requires sheet { IsSheetTo cut.now.parts cut.now.owners.items cut.now.zones.items cut.now.sides.items cut.now.wholes.items (map is_second colours.now) inks.now (is_second letter) 0 0 rects.old.items }
    ensures { OnOk result (IsSheetTo cut.now.parts cut.now.owners.items cut.now.zones.items cut.now.sides.items cut.now.wholes.items (map is_second colours.now) inks.now (is_second letter) (length cut.now.parts) 0 rects.new.items) }
{
    let parts = cut.parts.items();
    let owners = cut.owners.as_slice();
    for k in 0..parts.len() {
        let ink = inks[owners[k] as usize];
        put_uncut(rects, parts[k].rects(), colours[k], letter, ink)?;
    }
    Ok(())
}

/// Puts a feature that was cut on the mask of a letter, if it lies there alone.
fn put_whole(rects: &mut Vec<Rect>, set: &[Rect], letter: Mask, ink: Ink) -> Result<(), AllocError>
    ensures { OnOk result (PutsOne ink (is_second letter) set.now rects.old.items rects.new.items) }
{
    match ink {
        Ink::Uncut => Ok(()),
        Ink::Blank => Ok(()),
        Ink::One(own) => put(rects, set, own, letter),
        Ink::Both => Ok(()),
    }
}

/// Puts the features that were cut, and lie on the mask of a letter alone, there as they were.
fn add_wholes(
    rects: &mut Vec<Rect>,
    cut: &Cut,
    inks: &[Ink],
    colours: &[Mask],
    letter: Mask,
) -> Result<(), AllocError>
    requires sheet { IsSheetTo cut.now.parts cut.now.owners.items cut.now.zones.items cut.now.sides.items cut.now.wholes.items (map is_second colours.now) inks.now (is_second letter) (length cut.now.parts) 0 rects.old.items }
    ensures { OnOk result (IsSheetTo cut.now.parts cut.now.owners.items cut.now.zones.items cut.now.sides.items cut.now.wholes.items (map is_second colours.now) inks.now (is_second letter) (length cut.now.parts) (length cut.now.wholes.items) rects.new.items) }
{
    let wholes = cut.wholes.as_slice();
    for k in 0..wholes.len() {
        let whole = &wholes[k];
        put_whole(
            rects,
            whole.set.rects(),
            letter,
            inks[whole.feature as usize],
        )?;
    }
    Ok(())
}

/// Adds the number of a zone, if its sides differ.
fn add_stitch(
    stitches: &mut Vec<Id>,
    number: Id,
    first: Mask,
    second: Mask,
) -> Result<(), AllocError>
    ensures { OnOk result (((differ (is_second first) (is_second second) ≡ true) × (stitches.new.items ≡ stitches.old.items ++ number ∷ [])) ⊎ ((differ (is_second first) (is_second second) ≡ false) × (stitches.new.items ≡ stitches.old.items))) }
{
    match (first, second) {
        (Mask::A, Mask::A) => Ok(()),
        (Mask::B, Mask::B) => Ok(()),
        (Mask::A, Mask::B) => {
            stitches.push(number)?;
            Ok(())
        }
        (Mask::B, Mask::A) => {
            stitches.push(number)?;
            Ok(())
        }
    }
}

/// The stitches: the numbers of the zones whose sides differ.
pub fn stitches(alloc: Global, sides: &[(Id, Id)], colours: &[Mask]) -> Result<Vec<Id>, AllocError>
    requires { All (λ side. (side.0 < length colours.now) × (side.1 < length colours.now)) sides.now }
    ensures { IfOk result (λ v. AreStitches sides.now (map is_second colours.now) v.items) }
{
    let mut stitches = Vec::new(alloc);
    for (k, side) in sides.iter().enumerate() {
        add_stitch(
            &mut stitches,
            k as u64,
            colours[side.0 as usize],
            colours[side.1 as usize],
        )?;
    }
    Ok(stitches)
}
