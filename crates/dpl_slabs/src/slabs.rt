//! A set of squares.
ghost use Rattle.std.specs.Prelude.{◌≡◌, ◌↔◌, ◌⊎◌, IsTrue, IfSome, IfOk, OnOk, IsErr, IsNone, [], ◌∷◌, ◌++◌};
ghost use Rattle.dpl_spec_split.specs.Squares.{Covers, Has, SameSquares, IsLeast};
ghost use Rattle.dpl_spec_split.specs.Slabs.{IsCanonical, IsSolid, AreSlabsOf};
ghost use Rattle.dpl_spec_split.specs.Loops.{farthest, SomeLoopCovers, IsRectWithin, AreRectsWithin, AreLoopsWithin};
ghost use Rattle.dpl_spec_split.specs.Zones.{at, transposed};
ghost use Rattle.dpl_slabs.specs.Scattered.{AreScattered};

use crate::joint::combine_by_rows;
use crate::made::{ByWorkers, InTurn, Slicing};
use crate::rects::Rects;
use crate::slices::{put_together, slabs_left};
use crate::strips::{slabs_by_rows, slabs_of_rects};
use dpl_base::{Loop, Pt, Rect, all_transposed};
use dpl_order::sort_by_corner;
use dpl_sweep::Rule;
use std::alloc::{AllocError, Global};
use std::marker::Model;
use std::thread::Threads;

/// A set of squares. A contract sees its canonical slabs. A set that `Slabs::one` made takes no memory of its own.
#[derive(Drop)]
pub struct Slabs {
    rects: Rects,
}

impl Model for Slabs {
    ghost use Rattle.std.specs.Prelude.{List};
    ghost use Rattle.dpl_spec_split.specs.declared.Rect.{Rect};

    ghost Value = { List Rect };

    ghost use Rattle.dpl_slabs.specs.Rects.{rects_in};

    ghost view = { λ s. rects_in s.rects };

    ghost use Rattle.dpl_spec_split.specs.Slabs.{IsCanonical};
    ghost use Rattle.dpl_spec_split.specs.Loops.{farthest, AreRectsWithin};

    ghost invariant = { λ s. IsCanonical (rects_in s.rects) × AreRectsWithin farthest (rects_in s.rects) };
}

/// Whether the rectangle has the square.
fn covers(r: &Rect, x: i64, y: i64) -> bool
    ensures { IsTrue result ↔ Has r.now (at x y) }
{
    if x < r.x0 as i64 {
        return false;
    }
    if x >= r.x1 as i64 {
        return false;
    }
    if y < r.y0 as i64 {
        return false;
    }
    if y >= r.y1 as i64 {
        return false;
    }
    true
}

/// Whether the two rectangles are one.
fn same(a: &Rect, b: &Rect) -> bool
    ensures { IsTrue result ↔ (a.now ≡ b.now) }
{
    a.x0 == b.x0 && a.y0 == b.y0 && a.x1 == b.x1 && a.y1 == b.y1
}

/// A copy is the same set.
impl Clone for Slabs {
    ghost is_clone = { λ set copy. copy ≡ set };

    fn clone(&self) -> Result<Slabs, AllocError> {
        Ok(Slabs {
            rects: self.rects.copied()?,
        })
    }
}

impl Slabs {
    /// The canonical slabs.
    pub fn rects(&self) -> &[Rect]
        ensures value { result.now ≡ self.now }
        ensures canonical { IsCanonical self.now }
        ensures within { AreRectsWithin farthest self.now }
    {
        self.rects.as_slice()
    }

    /// No squares. It takes no memory.
    pub fn empty(alloc: Global) -> Slabs
        ensures { result ≡ [] }
    {
        Slabs {
            rects: Rects::Many(Vec::new(alloc)),
        }
    }

    /// Whether the square is in the set.
    pub fn has(&self, x: i64, y: i64) -> bool
        ensures { IsTrue result ↔ Covers self.now (at x y) }
    {
        for r in self.rects() {
            if covers(r, x, y) {
                return true;
            }
        }
        false
    }

    /// The least square, by row and then by column.
    pub fn least(&self) -> Option<Pt>
        ensures none { IsNone result ↔ (self.now ≡ []) }
        ensures some { IfSome result (λ p. IsLeast (Covers self.now) p) }
    {
        match self.rects().first() {
            None => None,
            Some(r) => Some(Pt {
                x: r.x0 as i64,
                y: r.y0 as i64,
            }),
        }
    }

    /// The squares of rectangles, in any order, that may overlap.
    pub fn of_rects(alloc: Global, rects: Vec<Rect>) -> Result<Slabs, AllocError>
        requires { AreRectsWithin farthest rects.items }
        ensures { IfOk result (λ s. AreSlabsOf (Covers rects.items) s) }
    {
        let slabs = slabs_of_rects(alloc, &InTurn, rects)?;
        Ok(Slabs::of_canonical(slabs))
    }

    /// The squares of rectangles that none of the holes has.
    pub fn of_rects_without(
        alloc: Global,
        rects: &[Rect],
        holes: &[Rect],
    ) -> Result<Slabs, AllocError>
        requires rects { AreRectsWithin farthest rects.now }
        requires holes { AreRectsWithin farthest holes.now }
        ensures { IfOk result (λ s. AreSlabsOf (λ p. Covers rects.now p × ¬ Covers holes.now p) s) }
    {
        let rects = slabs_left(alloc, rects, holes)?;
        Ok(Slabs::of_canonical(rects))
    }

    /// The squares of rectangles and loops, in any order, that may overlap. A loop has those where the signed sum over its upright edges isn't 0.
    pub fn of_shapes(alloc: Global, rects: Vec<Rect>, loops: Vec<Loop>) -> Result<Slabs, AllocError>
        requires rects { AreRectsWithin farthest rects.items }
        requires loops { AreLoopsWithin farthest loops.items }
        ensures { IfOk result (λ s. AreSlabsOf (λ p. Covers rects.items p ⊎ SomeLoopCovers loops.items p) s) }
    {
        Slabs::of_shapes_in(alloc, &InTurn, rects, loops)
    }

    /// The same by so many workers, who sweep loops, and blocks, slices or strips where there are many rectangles.
    pub fn of_shapes_by<R: Threads + Sync>(
        rt: &R,
        alloc: Global,
        rects: Vec<Rect>,
        loops: Vec<Loop>,
        workers: u32,
    ) -> Result<Slabs, AllocError>
        requires rects { AreRectsWithin farthest rects.items }
        requires loops { AreLoopsWithin farthest loops.items }
        ensures { IfOk result (λ s. AreSlabsOf (λ p. Covers rects.items p ⊎ SomeLoopCovers loops.items p) s) }
    {
        Slabs::of_shapes_in(alloc, &ByWorkers { rt, workers }, rects, loops)
    }

    /// The squares of rectangles and loops, slice by slice where there are many rectangles.
    fn of_shapes_in<S: Slicing>(
        alloc: Global,
        slicing: &S,
        rects: Vec<Rect>,
        loops: Vec<Loop>,
    ) -> Result<Slabs, AllocError>
        requires ready { S.ready }
        requires rects { AreRectsWithin farthest rects.items }
        requires loops { AreLoopsWithin farthest loops.items }
        ensures { IfOk result (λ s. AreSlabsOf (λ p. Covers rects.items p ⊎ SomeLoopCovers loops.items p) s) }
    {
        let others = slicing.rects_of_loops(alloc, &loops)?;
        drop(loops);
        let all = put_together(rects, others)?;
        let slabs = slabs_of_rects(alloc, slicing, all)?;
        Ok(Slabs::of_canonical(slabs))
    }

    /// The squares of loops, in any order, that may overlap, each by the signed sum over its upright edges.
    pub fn of_loops(alloc: Global, loops: Vec<Loop>) -> Result<Slabs, AllocError>
        requires { AreLoopsWithin farthest loops.items }
        ensures { IfOk result (λ s. AreSlabsOf (SomeLoopCovers loops.items) s) }
    {
        Slabs::of_shapes(alloc, Vec::new(alloc), loops)
    }

    /// The set of these canonical slabs, without taking memory.
    pub fn of_canonical(rects: Vec<Rect>) -> Slabs
        requires canonical { IsCanonical rects.items }
        requires within { AreRectsWithin farthest rects.items }
        ensures { result ≡ rects.items }
    {
        Slabs {
            rects: Rects::Many(rects),
        }
    }

    /// The set of these canonical slabs, which may go in any order, without taking memory.
    pub fn of_scattered(rects: Vec<Rect>) -> Slabs
        requires scattered { AreScattered rects.items }
        requires within { AreRectsWithin farthest rects.items }
        ensures { AreSlabsOf (Covers rects.items) result }
    {
        let mut slabs = rects;
        sort_by_corner(&mut slabs);
        Slabs::of_canonical(slabs)
    }

    /// The squares of one rectangle.
    pub fn one(alloc: Global, r: Rect) -> Result<Slabs, AllocError>
        requires solid { IsSolid r }
        requires within { IsRectWithin farthest r }
        ensures { IfOk result (λ s. s ≡ r ∷ []) }
    {
        Ok(Slabs {
            rects: Rects::One(r, alloc),
        })
    }

    /// Adds a rectangle that comes after all slabs of the set.
    pub fn add(&mut self, r: Rect) -> Result<(), AllocError>
        requires canonical { IsCanonical (self.old ++ r ∷ []) }
        requires within { IsRectWithin farthest r }
        ensures failed { IsErr result → self.new ≡ self.old }
        ensures added { OnOk result (self.new ≡ self.old ++ r ∷ []) }
    {
        self.rects.push(r)?;
        Ok(())
    }

    /// The squares of either set.
    pub fn union(&self, alloc: Global, other: &Slabs) -> Result<Slabs, AllocError>
        ensures { IfOk result (λ s. AreSlabsOf (λ p. Covers self.now p ⊎ Covers other.now p) s) }
    {
        let (firsts, others) = (self.rects(), other.rects());
        let mut rects = Vec::with_capacity(alloc, firsts.len().saturating_add(others.len()))?;
        rects.extend_from_slice(firsts)?;
        rects.extend_from_slice(others)?;
        let slabs = slabs_of_rects(alloc, &InTurn, rects)?;
        Ok(Slabs::of_canonical(slabs))
    }

    /// The squares of the set that aren't in the other.
    pub fn minus(&self, alloc: Global, other: &Slabs) -> Result<Slabs, AllocError>
        ensures { IfOk result (λ s. AreSlabsOf (λ p. Covers self.now p × ¬ Covers other.now p) s) }
    {
        let rects = combine_by_rows(alloc, self.rects(), other.rects(), Rule::Minus)?;
        Ok(Slabs::of_canonical(rects))
    }

    /// The squares of both sets.
    pub fn meet(&self, alloc: Global, other: &Slabs) -> Result<Slabs, AllocError>
        ensures { IfOk result (λ s. AreSlabsOf (λ p. Covers self.now p × Covers other.now p) s) }
    {
        let rects = combine_by_rows(alloc, self.rects(), other.rects(), Rule::Both)?;
        Ok(Slabs::of_canonical(rects))
    }

    /// The canonical slabs of the transposed set: x and y are exchanged.
    pub fn columns(&self, alloc: Global) -> Result<Vec<Rect>, AllocError>
        ensures slabs { IfOk result (λ v. AreSlabsOf (transposed (Covers self.now)) v.items) }
        ensures within { IfOk result (λ v. AreRectsWithin farthest v.items) }
    {
        self.columns_in(alloc, &InTurn)
    }

    /// The same by so many workers, who sweep slices or strips where there are many slabs.
    pub fn columns_by<R: Threads + Sync>(
        &self,
        rt: &R,
        alloc: Global,
        workers: u32,
    ) -> Result<Vec<Rect>, AllocError>
        ensures slabs { IfOk result (λ v. AreSlabsOf (transposed (Covers self.now)) v.items) }
        ensures within { IfOk result (λ v. AreRectsWithin farthest v.items) }
    {
        self.columns_in(alloc, &ByWorkers { rt, workers })
    }

    /// The slabs of the transposed set, slice by slice where there are many.
    fn columns_in<S: Slicing>(&self, alloc: Global, slicing: &S) -> Result<Vec<Rect>, AllocError>
        requires ready { S.ready }
        ensures slabs { IfOk result (λ v. AreSlabsOf (transposed (Covers self.now)) v.items) }
        ensures within { IfOk result (λ v. AreRectsWithin farthest v.items) }
    {
        let mut transposed = all_transposed(alloc, self.rects())?;
        if transposed.len() == 1 {
            return Ok(transposed);
        }
        sort_by_corner(&mut transposed);
        slabs_by_rows(alloc, slicing, &transposed)
    }

    /// Whether the two are one set.
    pub fn equal(&self, other: &Slabs) -> bool
        ensures { IsTrue result ↔ SameSquares (Covers self.now) (Covers other.now) }
    {
        let rects = self.rects();
        let others = other.rects();
        if rects.len() != others.len() {
            return false;
        }
        for i in 0..rects.len() {
            if !same(&rects[i], &others[i]) {
                return false;
            }
        }
        true
    }
}
