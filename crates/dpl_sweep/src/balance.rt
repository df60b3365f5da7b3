//! Bands put together, so that their tree stays shallow.
ghost use Rattle.std.specs.Prelude.{◌≡◌, ◌^◌, IfOk, IfSome, IsNone};
ghost use Rattle.dpl_sweep.specs.declared.run.Run.{Run};
ghost use Rattle.dpl_sweep.specs.Rows.{AreOneTree, IsSmall, IsMended, Mends};

use crate::bands::{Bands, Parts, cut_over, take_apart};
use crate::edge::Rule;
use crate::run::{Run, one_run};
use std::alloc::{AllocError, Global};

/// The run of both, where each is one band and one run can stand for theirs.
fn shared(rule: Rule, below: &Bands, above: &Bands) -> Option<Run>
    ensures some { IfSome result (λ run. AreOneTree rule below.now above.now run) }
    ensures none { IsNone result → (run : Run) → AreOneTree rule below.now above.now run → ⊥ }
{
    match below.run() {
        None => None,
        Some(run) => match above.run() {
            None => None,
            Some(other) => one_run(rule, &run, &other),
        },
    }
}

/// The two parts as they are, or as one band.
fn two(alloc: Global, rule: Rule, below: Bands, row: i32, above: Bands) -> Result<Bands, AllocError>
    requires below { IsSmall (2 ^ 62) below }
    requires above { IsSmall (2 ^ 62) above }
    ensures { IfOk result (λ t. IsMended rule below row above t) }
{
    match shared(rule, &below, &above) {
        Some(run) => Ok(Bands::One(run)),
        None => {
            let cut = cut_over(&below, row, &above);
            let below = Box::new(alloc, below)?;
            let above = Box::new(alloc, above)?;
            Ok(Bands::Two(below, cut, above))
        }
    }
}

/// The two parts with the topmost cut of the upper one on top, as a rotation brings it there.
fn lift_above(
    alloc: Global,
    rule: Rule,
    below: Bands,
    row: i32,
    above: Bands,
) -> Result<Bands, AllocError>
    requires below { IsSmall (2 ^ 62) below }
    requires above { IsSmall (2 ^ 62) above }
    ensures { IfOk result (λ t. IsMended rule below row above t) }
{
    match take_apart(above) {
        Parts::Whole(run) => two(alloc, rule, below, row, Bands::One(run)),
        Parts::Split(middle, last, high) => {
            let lower = two(alloc, rule, below, row, middle)?;
            two(alloc, rule, lower, last, high)
        }
    }
}

/// The two parts with the topmost cut of the lower one on top, as a rotation brings it there.
fn lift_below(
    alloc: Global,
    rule: Rule,
    below: Bands,
    row: i32,
    above: Bands,
) -> Result<Bands, AllocError>
    requires below { IsSmall (2 ^ 62) below }
    requires above { IsSmall (2 ^ 62) above }
    ensures { IfOk result (λ t. IsMended rule below row above t) }
{
    match take_apart(below) {
        Parts::Whole(run) => two(alloc, rule, Bands::One(run), row, above),
        Parts::Split(low, first, middle) => {
            let upper = two(alloc, rule, middle, row, above)?;
            two(alloc, rule, low, first, upper)
        }
    }
}

/// Whether the lower part is higher than the upper one.
fn leans_below(bands: &Bands) -> bool {
    match bands {
        Bands::One(_) => false,
        Bands::Two(below, _, above) => below.height() > above.height(),
    }
}

/// Whether the upper part is higher than the lower one.
fn leans_above(bands: &Bands) -> bool {
    match bands {
        Bands::One(_) => false,
        Bands::Two(below, _, above) => above.height() > below.height(),
    }
}

/// The same bands, rotated so that the lower part isn't the higher one.
fn rotated_up(alloc: Global, rule: Rule, bands: Bands) -> Result<Bands, AllocError>
    requires { IsSmall (2 ^ 62) bands }
    ensures { IfOk result (λ t. Mends rule bands t) }
{
    if !leans_below(&bands) {
        return Ok(bands);
    }
    match take_apart(bands) {
        Parts::Whole(run) => Ok(Bands::One(run)),
        Parts::Split(below, row, above) => lift_below(alloc, rule, below, row, above),
    }
}

/// The same bands, rotated so that the upper part isn't the higher one.
fn rotated_down(alloc: Global, rule: Rule, bands: Bands) -> Result<Bands, AllocError>
    requires { IsSmall (2 ^ 62) bands }
    ensures { IfOk result (λ t. Mends rule bands t) }
{
    if !leans_above(&bands) {
        return Ok(bands);
    }
    match take_apart(bands) {
        Parts::Whole(run) => Ok(Bands::One(run)),
        Parts::Split(below, row, above) => lift_above(alloc, rule, below, row, above),
    }
}

/// Whether the first is higher than the second by more than one.
fn is_higher(bands: &Bands, other: &Bands) -> bool {
    bands.height() > other.height().saturating_add(1)
}

/// Whether neither part is higher than the other by more than one, nor one run stands for both.
pub fn is_mended(rule: Rule, below: &Bands, above: &Bands) -> bool {
    !is_higher(below, above) && !is_higher(above, below) && shared(rule, below, above).is_none()
}

/// The two parts as one tree, where their heights differ by two at most.
fn balanced(
    alloc: Global,
    rule: Rule,
    below: Bands,
    row: i32,
    above: Bands,
) -> Result<Bands, AllocError>
    requires below { IsSmall (2 ^ 62) below }
    requires above { IsSmall (2 ^ 62) above }
    ensures { IfOk result (λ t. IsMended rule below row above t) }
{
    if is_higher(&above, &below) {
        let upper = rotated_up(alloc, rule, above)?;
        return lift_above(alloc, rule, below, row, upper);
    }
    if is_higher(&below, &above) {
        let lower = rotated_down(alloc, rule, below)?;
        return lift_below(alloc, rule, lower, row, above);
    }
    two(alloc, rule, below, row, above)
}

/// The two parts as one tree.
pub fn join(
    alloc: Global,
    rule: Rule,
    below: Bands,
    row: i32,
    above: Bands,
) -> Result<Bands, AllocError>
    requires below { IsSmall (2 ^ 62) below }
    requires above { IsSmall (2 ^ 62) above }
    ensures { IfOk result (λ t. IsMended rule below row above t) }
{
    if is_higher(&below, &above) {
        return match take_apart(below) {
            Parts::Whole(run) => two(alloc, rule, Bands::One(run), row, above),
            Parts::Split(low, first, middle) => {
                let upper = join(alloc, rule, middle, row, above)?;
                balanced(alloc, rule, low, first, upper)
            }
        };
    }
    if is_higher(&above, &below) {
        return match take_apart(above) {
            Parts::Whole(run) => two(alloc, rule, below, row, Bands::One(run)),
            Parts::Split(middle, last, high) => {
                let lower = join(alloc, rule, below, row, middle)?;
                balanced(alloc, rule, lower, last, high)
            }
        };
    }
    two(alloc, rule, below, row, above)
}

/// The same bands, as a shallow tree.
pub fn mended(alloc: Global, rule: Rule, bands: Bands) -> Result<Bands, AllocError>
    requires { IsSmall (2 ^ 62) bands }
    ensures { IfOk result (λ t. Mends rule bands t) }
{
    match take_apart(bands) {
        Parts::Whole(run) => Ok(Bands::One(run)),
        Parts::Split(below, row, above) => join(alloc, rule, below, row, above),
    }
}
