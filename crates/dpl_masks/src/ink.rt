//! On which masks features lie.
ghost use Rattle.std.specs.Prelude.{◌≡◌, ◌<◌, ◌↔◌, IsTrue, IfOk, List, length, map};
ghost use Rattle.std.specs.List.{All};
ghost use Rattle.dpl_piece.specs.declared.piece.Whole.{Whole};
ghost use Rattle.dpl_orient.specs.Masks.{is_second};
ghost use Rattle.dpl_masks.specs.Inks.{AreInks, AreInksTo, AreNotedTo, IsMixed, ink_after};
ghost use Rattle.dpl_masks.specs.Sheets.{AreInked};

use dpl_base::Id;
use dpl_orient::Mask;
use dpl_piece::{Cut, Pieces, Whole};
use std::alloc::{AllocError, Global};

/// On which masks the pieces of a feature lie.
#[derive(Clone, Copy, Drop)]
pub enum Ink {
    /// No zone cuts the feature.
    Uncut,
    /// Zones cut it, and no piece of it is known.
    Blank,
    /// Zones cut it, and all of its pieces lie on the mask.
    One(Mask),
    /// Its pieces lie on both masks.
    Both,
}

/// Whether two letters are one.
pub fn is_same(a: Mask, b: Mask) -> bool
    ensures { IsTrue result ↔ (is_second a ≡ is_second b) }
{
    match (a, b) {
        (Mask::A, Mask::A) => true,
        (Mask::B, Mask::B) => true,
        (Mask::A, Mask::B) => false,
        (Mask::B, Mask::A) => false,
    }
}

/// With one more piece, of this letter.
fn inked(ink: Ink, letter: Mask) -> Ink
    ensures { result ≡ ink_after ink letter }
{
    match ink {
        Ink::Uncut => Ink::Uncut,
        Ink::Blank => Ink::One(letter),
        Ink::One(other) => {
            if is_same(other, letter) {
                Ink::One(other)
            } else {
                Ink::Both
            }
        }
        Ink::Both => Ink::Both,
    }
}

/// Whether zones cut the feature and its pieces don't all lie on one mask.
pub fn is_mixed(ink: Ink) -> bool
    ensures { IsTrue result ↔ IsMixed ink }
{
    match ink {
        Ink::Uncut => false,
        Ink::Blank => true,
        Ink::One(_) => false,
        Ink::Both => true,
    }
}

/// Notes the features that were cut.
fn note_wholes(inks: &mut Vec<Ink>, wholes: &[Whole])
    requires known { All (λ w. w.feature < length inks.old.items) wholes.now }
    requires none { AreNotedTo 0 wholes.now inks.old.items }
    ensures each { length inks.new.items ≡ length inks.old.items }
    ensures noted { AreNotedTo (length wholes.now) wholes.now inks.new.items }
{
    for k in 0..wholes.len() {
        inks[wholes[k].feature as usize] = Ink::Blank;
    }
}

/// Notes the letter of each piece at its feature.
fn note_pieces(inks: &mut Vec<Ink>, owners: &[Id], colours: &[Mask])
    requires each { length owners.now ≡ length colours.now }
    requires known { All (λ k. k < length inks.old.items) owners.now }
    ensures { (wholes : List Whole) → AreInksTo 0 (length inks.old.items) owners.now (map is_second colours.now) wholes inks.old.items → AreInks (length inks.old.items) owners.now (map is_second colours.now) wholes inks.new.items }
{
    for k in 0..owners.len() {
        let feature = owners[k] as usize;
        inks[feature] = inked(inks[feature], colours[k]);
    }
}

/// On which masks each of so many features lies.
fn inks_of(
    alloc: Global,
    count: usize,
    owners: &[Id],
    wholes: &[Whole],
    colours: &[Mask],
) -> Result<Vec<Ink>, AllocError>
    requires each { length owners.now ≡ length colours.now }
    requires known { All (λ k. k < count) owners.now }
    requires wholes { All (λ w. w.feature < count) wholes.now }
    ensures { IfOk result (λ v. AreInks count owners.now (map is_second colours.now) wholes.now v.items) }
{
    let mut inks = vec![in alloc; Ink::Uncut; count]?;
    note_wholes(&mut inks, wholes);
    note_pieces(&mut inks, owners, colours);
    Ok(inks)
}

/// The pieces of a layer, and on which masks its features lie.
#[derive(Drop)]
pub(crate) struct InkedPieces {
    pub(crate) cut: Cut,
    pub(crate) inks: Vec<Ink>,
}

/// Coloured pieces with their features' masks.
pub(crate) fn inked_pieces(
    alloc: Global,
    pieces: Pieces,
    colours: &[Mask],
) -> Result<InkedPieces, AllocError>
    requires { length colours.now ≡ length pieces.parts }
    ensures inked { IfOk result (λ i. AreInked i.cut colours.now i.inks.items) }
    ensures parts { IfOk result (λ i. i.cut.parts ≡ pieces.parts) }
    ensures zones { IfOk result (λ i. i.cut.zones.items ≡ pieces.zones) }
    ensures sides { IfOk result (λ i. i.cut.sides.items ≡ pieces.sides) }
{
    let cut = pieces.into_cut();
    let inks = inks_of(alloc, cut.count, &cut.owners, &cut.wholes, colours)?;
    Ok(InkedPieces { cut, inks })
}
