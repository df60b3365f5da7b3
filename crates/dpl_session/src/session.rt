//! A session: a layer that is edited, and its answer.
ghost use Rattle.std.specs.Prelude.{◌≡◌, ℕ, ◌<◌, ◌≤◌, ◌∷◌, [], IfOk, OnOk, IsErr, List, length};
ghost use Rattle.std.specs.List.{All};
ghost use Rattle.dpl_spec_split.specs.declared.Rect.{Rect};
ghost use Rattle.dpl_spec_split.specs.declared.Pt.{Pt};
ghost use Rattle.dpl_spec_split.specs.Pieces.{Conflict};
ghost use Rattle.dpl_spec_split.specs.Squares.{Covers};
ghost use Rattle.dpl_spec_edits.specs.declared.Edit.TheVariants.{Add, Remove};
ghost use Rattle.dpl_spec_edits.specs.Text.{IsEdit};
ghost use Rattle.dpl_session.specs.Answered.{Decides, IsAnswerTo};
ghost use Rattle.dpl_session.specs.Held.{EditsOneAfterAnother, IsEdited, IsOpened, TookFewDirty};
ghost use Rattle.dpl_session.specs.Kept.{AreCells, AreKept, AreTilesOf, IsFresh, IsFreshIn};
ghost use Rattle.dpl_session.specs.Windows.{AreWhole};
ghost use Rattle.dpl_slabs.specs.Parts.{union_of};
ghost use Rattle.dpl_session.specs.Clean.{IsDirty};
ghost use Rattle.dpl_session.specs.Tiles.{IsSide, IsTile, TookFew};

use crate::cells::{Cells, cells_over};
use crate::index::Index;
use crate::kept::{Found, tiles_of};
use crate::steps::Steps;
use crate::tile::Tile;
use crate::verdict::{Verdict, decide};
use dpl_base::{Id, Rect, Spacing};
use dpl_cut::{LayerCut, cut_within};
use dpl_edits::edited;
use dpl_orient::Colours;
use dpl_piece::Pieces;
use dpl_slabs::{Parts, Slabs};
use dpl_spec_edits::Edit;
use std::alloc::{AllocError, Global};
use std::marker::Model;
use std::sync::ledger::Ledger;

/// The answer to a layer.
#[derive(Drop)]
pub enum Answer<'a> {
    /// The conflicts have no odd cycle: the pieces, by least square, and the mask of each.
    Done {
        pieces: &'a Parts,
        colours: &'a Colours,
    },
    /// The conflicts have one: the pieces, by least square, and the numbers, from 0, of those on the reported cycle.
    Odd {
        pieces: &'a Parts,
        cycle: &'a [Id],
    },
}

/// A layer that is edited by rectangles, with its answer. A contract sees the layer, its spacing, how long a stitch is, and the side of the cells by which conflicts are found.
#[derive(Drop)]
pub struct Session {
    layer: Slabs,
    spacing: Spacing,
    overlap: u32,
    side: u32,
    pieces: Pieces,
    verdict: Verdict,
    tiles: Vec<Tile>,
}

impl Model for Session {
    ghost use Rattle.dpl_session.specs.Held.{Held};
    ghost use Rattle.dpl_session.specs.Kept.{IsStanding};

    ghost Value = { Held };

    ghost view = { λ s. record { spacing = s.spacing; overlap = s.overlap; side = s.side; layer = s.layer } };

    ghost invariant = { λ s. IsStanding s.layer s.spacing s.overlap s.side s.pieces s.verdict s.tiles.items };
}

/// The tiles of pieces of so many features, and their conflicts.
fn look_into<L: Ledger>(
    alloc: Global,
    cut: &LayerCut,
    cells: &Cells,
    old: &[Tile],
    spacing: Spacing,
    steps: &mut Steps<L>,
) -> Result<Found, AllocError>
    requires corner { spacing.corner ≤ spacing.rule }
    requires whole { AreWhole cut.now.pieces.parts }
    requires owners { All (λ k. k < cut.now.features) cut.now.pieces.owners }
    requires kept { AreKept spacing old.now }
    requires cells { (layer : List Rect) × AreCells (Covers layer) cells.now.side cells.now.cells.items × ((p : Pt) → union_of cut.now.pieces.parts p → Covers layer p) }
    ensures tiles { IfOk result (λ f. AreTilesOf spacing cut.now.pieces.parts cut.now.pieces.owners cells.now.cells.items f.tiles.items f.edges.items) }
    ensures steps { TookFew (IsFresh spacing.rule old.now cells.now.side cut.now.pieces.parts cut.now.pieces.owners) steps.old steps.new }
{
    let mut first = vec![in alloc; 0; cut.features as usize]?;
    let index = Index::of(alloc, &cut.pieces)?;
    tiles_of(alloc, &index, cells, old, spacing, &mut first, steps)
}

/// The tiles of a cut layer, and what is told of its pieces.
#[derive(Drop)]
struct Settled {
    tiles: Vec<Tile>,
    verdict: Verdict,
}

/// Finds the tiles of a cut layer, and what is told of its pieces. The conflicts of tiles that are as one of the old tiles are taken from there.
fn settle<L: Ledger>(
    alloc: Global,
    cut: &LayerCut,
    cells: &Cells,
    old: &[Tile],
    spacing: Spacing,
    steps: &mut Steps<L>,
) -> Result<Settled, AllocError>
    requires corner { spacing.corner ≤ spacing.rule }
    requires whole { AreWhole cut.now.pieces.parts }
    requires owners { All (λ k. k < cut.now.features) cut.now.pieces.owners }
    requires kept { AreKept spacing old.now }
    requires cells { (layer : List Rect) × AreCells (Covers layer) cells.now.side cells.now.cells.items × ((p : Pt) → union_of cut.now.pieces.parts p → Covers layer p) }
    ensures tiles { IfOk result (λ s. (edges : List (ℕ × ℕ)) × AreTilesOf spacing cut.now.pieces.parts cut.now.pieces.owners cells.now.cells.items s.tiles.items edges) }
    ensures decided { IfOk result (λ s. Decides (Conflict spacing cut.now.pieces.parts cut.now.pieces.owners) (length cut.now.pieces.parts) cut.now.pieces.sides s.verdict) }
    ensures steps { TookFew (IsFresh spacing.rule old.now cells.now.side cut.now.pieces.parts cut.now.pieces.owners) steps.old steps.new }
{
    let found = look_into(alloc, cut, cells, old, spacing, steps)?;
    let count = cut.pieces.parts().items().len() as Id;
    let verdict = decide(alloc, count, cut.pieces.sides(), &found.edges)?;
    Ok(Settled {
        tiles: found.tiles,
        verdict,
    })
}

/// The session of a layer, with cells whose side is `tile`, doubled some number of times. The conflicts of tiles that are as one of the old tiles are taken from there.
fn session_of<L: Ledger>(
    alloc: Global,
    layer: Slabs,
    spacing: Spacing,
    overlap: u32,
    tile: u32,
    old: &[Tile],
    steps: &mut Steps<L>,
) -> Result<Session, AllocError>
    requires corner { spacing.corner ≤ spacing.rule }
    requires overlap { 1 ≤ overlap }
    requires tile { 1 ≤ tile }
    requires kept { AreKept spacing old.now }
    ensures opened { IfOk result (IsOpened spacing overlap tile layer) }
    ensures steps { (side : ℕ) → IsSide (Covers layer) tile side → TookFew (IsFreshIn spacing overlap layer old.now side) steps.old steps.new }
{
    let unmarked = Slabs::empty(alloc);
    let cut = cut_within(alloc, &layer, spacing, overlap, &unmarked)?;
    let cells = cells_over(alloc, &layer, tile)?;
    let settled = settle(alloc, &cut, &cells, old, spacing, steps)?;
    Ok(Session {
        layer,
        spacing,
        overlap,
        side: cells.side,
        pieces: cut.pieces,
        verdict: settled.verdict,
        tiles: settled.tiles,
    })
}

impl Session {
    /// A session of a layer, whose features stay `spacing` apart on one mask and whose stitches are `overlap` long, in database units. The corner rule may not be above the rule, and `overlap` and `tile` are at least 1. Conflicts are found by the cells of a grid with its corner at -1,000,000,000 by -1,000,000,000 and with sides of `tile` database units, doubled until there are at most 16,777,216 pairs of a slab and a cell that it meets, or one cell has all squares. It takes at most a step for each cell with a square of the layer.
    ///
    /// The error: out of memory. The steps that were taken until then stay counted.
    pub fn open<L: Ledger>(
        alloc: Global,
        layer: &Slabs,
        spacing: Spacing,
        overlap: u32,
        tile: u32,
        steps: &mut Steps<L>,
    ) -> Result<Session, AllocError>
        requires corner { spacing.corner ≤ spacing.rule }
        requires overlap { 1 ≤ overlap }
        requires tile { 1 ≤ tile }
        ensures opened { IfOk result (IsOpened spacing overlap tile layer.now) }
        ensures steps { (side : ℕ) → IsSide (Covers layer.now) tile side → TookFew (IsTile side (Covers layer.now)) steps.old steps.new }
    {
        let layer = layer.clone()?;
        let none = Vec::new(alloc);
        session_of(alloc, layer, spacing, overlap, tile, &none, steps)
    }

    /// Adds the squares of a rectangle to the layer. Its coordinates are in database units, within 1,000,000,000 of 0, with x0 < x1 and y0 < y1. It takes at most a step for each tile of the layer that is dirty then.
    ///
    /// The error: out of memory. The session is as it was, and the steps that were taken until then stay counted.
    pub fn add<L: Ledger>(
        &mut self,
        alloc: Global,
        rect: Rect,
        steps: &mut Steps<L>,
    ) -> Result<(), AllocError>
        requires { IsEdit (Add rect) }
        ensures failed { IsErr result → self.new ≡ self.old }
        ensures edited { OnOk result (IsEdited self.old (Add rect ∷ []) self.new) }
        ensures steps { TookFewDirty self.old (Add rect ∷ []) steps.old steps.new }
    {
        self.edit(alloc, Edit::Add(rect), steps)
    }

    /// Takes the squares of a rectangle away from the layer. Its coordinates are in database units, within 1,000,000,000 of 0, with x0 < x1 and y0 < y1. It takes at most a step for each tile of the layer that is dirty then.
    ///
    /// The error: out of memory. The session is as it was, and the steps that were taken until then stay counted.
    pub fn remove<L: Ledger>(
        &mut self,
        alloc: Global,
        rect: Rect,
        steps: &mut Steps<L>,
    ) -> Result<(), AllocError>
        requires { IsEdit (Remove rect) }
        ensures failed { IsErr result → self.new ≡ self.old }
        ensures edited { OnOk result (IsEdited self.old (Remove rect ∷ []) self.new) }
        ensures steps { TookFewDirty self.old (Remove rect ∷ []) steps.old steps.new }
    {
        self.edit(alloc, Edit::Remove(rect), steps)
    }

    /// Makes one edit, whose rectangle is in database units, with coordinates within 1,000,000,000 of 0, x0 < x1 and y0 < y1. It takes at most a step for each tile of the layer that is dirty then.
    ///
    /// The error: out of memory. The session is as it was, and the steps that were taken until then stay counted.
    pub fn edit<L: Ledger>(
        &mut self,
        alloc: Global,
        edit: Edit,
        steps: &mut Steps<L>,
    ) -> Result<(), AllocError>
        requires { IsEdit edit }
        ensures failed { IsErr result → self.new ≡ self.old }
        ensures edited { OnOk result (IsEdited self.old (edit ∷ []) self.new) }
        ensures steps { TookFewDirty self.old (edit ∷ []) steps.old steps.new }
    {
        self.edit_all(alloc, &[edit], steps)
    }

    /// Makes edits in order, all or none of them, and then brings the answer up to date once. Their rectangles are in database units, with coordinates within 1,000,000,000 of 0, x0 < x1 and y0 < y1. It takes at most a step for each tile of the layer that is dirty then.
    ///
    /// The error: out of memory. The session is as it was, and the steps that were taken until then stay counted.
    pub fn edit_all<L: Ledger>(
        &mut self,
        alloc: Global,
        edits: &[Edit],
        steps: &mut Steps<L>,
    ) -> Result<(), AllocError>
        requires { All IsEdit edits.now }
        ensures failed { IsErr result → self.new ≡ self.old }
        ensures edited { OnOk result (IsEdited self.old edits.now self.new) }
        ensures steps { TookFewDirty self.old edits.now steps.old steps.new }
    {
        let before = self.layer.clone()?;
        let after = edited(alloc, before, edits)?;
        self.move_to(alloc, after, steps)
    }

    /// Takes another layer in place of the session's.
    fn move_to<L: Ledger>(
        &mut self,
        alloc: Global,
        layer: Slabs,
        steps: &mut Steps<L>,
    ) -> Result<(), AllocError>
        ensures failed { IsErr result → self.new ≡ self.old }
        ensures moved { OnOk result (IsOpened self.old.spacing self.old.overlap self.old.side layer self.new) }
        ensures steps { (side : ℕ) → IsSide (Covers layer) self.old.side side → TookFew (IsDirty self.old.spacing self.old.overlap self.old.layer self.old.side layer side) steps.old steps.new }
    {
        let session = session_of(
            alloc,
            layer,
            self.spacing,
            self.overlap,
            self.side,
            &self.tiles,
            steps,
        )?;
        *self = session;
        Ok(())
    }

    /// The layer. It takes no memory.
    pub fn layer(&self) -> &Slabs
        ensures { result.now ≡ self.now.layer }
    {
        &self.layer
    }

    /// The answer to the layer as it is. It takes no memory.
    pub fn answer(&self) -> Answer<'_>
        ensures { IsAnswerTo self.now.spacing self.now.overlap (Covers self.now.layer) result }
    {
        let pieces = self.pieces.parts();
        match &self.verdict {
            Verdict::Even(colours) => Answer::Done { pieces, colours },
            Verdict::Odd(cycle) => Answer::Odd {
                pieces,
                cycle: cycle.items(),
            },
        }
    }
}

/// Edits, and then others, leave the spacing and the overlap as they were, and the layer that all of them in a row leave.
pub fn edits_one_after_another()
    ensures { EditsOneAfterAnother }
{}
