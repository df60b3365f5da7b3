//! Pieces that aren't on the masks that a certificate names.
ghost use Rattle.std.specs.Prelude.{◌≢◌, ◌⊎◌, ◌↔◌, cond, IsTrue, IfOk};
ghost use Rattle.std.specs.List.{All};
ghost use Rattle.dpl_cert.specs.Grammar.{IsPiece};
ghost use Rattle.dpl_spec_split.specs.Squares.{Covers};
ghost use Rattle.dpl_tree.specs.declared.owners.Owners.TheVariants.{All as Everyone};
ghost use Rattle.dpl_nearest.specs.Search.{AreSolidItems, ItemCovers};
ghost use Rattle.dpl_spec_verdict.specs.Masks.{IsBadPiece};
ghost use Rattle.dpl_check.specs.Findings.{IsFirstBadOf, IsOffMask};

use crate::window::has;
use dpl_cert::PieceLine;
use dpl_nearest::tree_of;
use dpl_slabs::Slabs;
use dpl_tree::Tree;
use std::alloc::{AllocError, Global};

/// Whether the piece's square is on the mask that the line names.
fn is_on_mask(line: &PieceLine, a: &Tree, b: &Tree) -> bool
    requires fits { IsPiece line.now }
    requires items_a { AreSolidItems a.now }
    requires items_b { AreSolidItems b.now }
    ensures { IsTrue result ↔ ItemCovers Everyone (cond line.now.b b.now a.now) line.now.key }
{
    let key = line.key.point();
    if line.b {
        return has(b, key);
    }
    has(a, key)
}

/// The first piece whose square isn't on the mask that its line names.
fn first_off(pieces: &[PieceLine], a: &Tree, b: &Tree) -> Option<u64>
    requires fits { All IsPiece pieces.now }
    requires items_a { AreSolidItems a.now }
    requires items_b { AreSolidItems b.now }
    ensures { IsFirstBadOf (IsOffMask a.now b.now) pieces.now result }
{
    for k in 0..pieces.len() {
        if !is_on_mask(&pieces[k], a, b) {
            return Some(k as u64);
        }
    }
    None
}

/// The first piece whose square isn't on the mask that its line names.
pub(crate) fn bad_piece(
    alloc: Global,
    a: &Slabs,
    b: &Slabs,
    pieces: &[PieceLine],
) -> Result<Option<u64>, AllocError>
    requires { All IsPiece pieces.now }
    ensures { IfOk result (λ found. IsFirstBadOf (IsBadPiece a.now b.now) pieces.now found) }
{
    let on_a = tree_of(alloc, a.rects())?;
    let on_b = tree_of(alloc, b.rects())?;
    Ok(first_off(pieces, &on_a, &on_b))
}
