//! What stood at the places of a cycle.
use dpl_cert::PlaceLine;
use std::alloc::{AllocError, Global};

/// Which pieces stood at a place, by their numbers, and whether the anchor of mask A did, and that of mask B.
#[derive(Drop)]
pub(crate) struct Stood {
    pieces: Vec<bool>,
    a: bool,
    b: bool,
}

impl Stood {
    ghost use Rattle.std.specs.Prelude.{◌≡◌, List, length, IfOk};
    ghost use Rattle.dpl_cert.specs.declared.cert.PlaceLine.{PlaceLine};
    ghost use Rattle.dpl_check.specs.Places.{AreNoted, HasNoted, IsBelow, stood_at};

    /// No anchor, and none of these many pieces.
    pub(crate) fn none(alloc: Global, count: usize) -> Result<Stood, AllocError>
        ensures { IfOk result (λ s. (cycle : List PlaceLine) → AreNoted count cycle 0 s) }
    {
        let pieces = vec![in alloc; false; count]?;
        Ok(Stood {
            pieces,
            a: false,
            b: false,
        })
    }

    /// Whether what stands at the place is noted.
    pub(crate) fn has(&self, place: &PlaceLine) -> bool
        requires { IsBelow (length self.now.pieces.items) place.now }
        ensures { result ≡ stood_at self.now place.now }
    {
        match place {
            PlaceLine::Piece { piece, .. } => self.pieces[*piece as usize],
            PlaceLine::Anchor { b } => { if *b { self.b } else { self.a } }
        }
    }

    /// Notes what stands at the place.
    pub(crate) fn add(&mut self, place: &PlaceLine)
        requires { IsBelow (length self.old.pieces.items) place.now }
        ensures { HasNoted place.now self.old self.new }
    {
        match place {
            PlaceLine::Piece { piece, .. } => self.pieces[*piece as usize] = true,
            PlaceLine::Anchor { b } => {
                if *b {
                    self.b = true;
                } else {
                    self.a = true;
                }
            }
        }
    }
}
