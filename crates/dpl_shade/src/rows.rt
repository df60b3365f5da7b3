//! The rows at which a slab is near a rectangle, and the rows between such spans.
ghost use Rattle.std.specs.Prelude.{◌≡◌, ◌+◌, ◌^◌, ◌<◌, ◌≤◌, ◌⊎◌, ◌↔◌, ℤ, pos, ◌+ℤ◌, ◌≤ℤ◌, ◌<ℤ◌, IsTrue, IsNone, IfSome, IfOk, OnOk, length, unsigned_abs};
ghost use Rattle.std.specs.List.{Contains};
ghost use Rattle.dpl_shade.specs.declared.rows.Span.{Span};
ghost use Rattle.dpl_spec_split.specs.declared.Rect.{Rect};
ghost use Rattle.dpl_spec_split.specs.Loops.{farthest};
ghost use Rattle.dpl_spec_split.specs.Squares.{IsSolidWithin};
ghost use Rattle.dpl_shade.specs.Rows.{SomeRow, AreTall, RiseByFrom, IsShaded, IsShadow, IsGap, AddsSpan};

use dpl_base::{Rect, Spacing, reach, span_gap};
use std::alloc::AllocError;

/// The rows from `from` up to but not `to`.
#[derive(Clone, Copy, Default, Drop)]
pub struct Span {
    pub from: i64,
    pub to: i64,
}

/// The rows at which the slab is near another rectangle, so that no zone may stand in them.
pub(crate) fn shadow(slab: &Rect, other: &Rect, spacing: Spacing) -> Option<Span>
    requires corner { spacing.corner ≤ spacing.rule }
    requires slab { IsSolidWithin farthest slab.now }
    requires other { IsSolidWithin farthest other.now }
    ensures none { IsNone result → (y : ℤ) → IsShaded spacing slab.now other.now y → ⊥ }
    ensures some { IfSome result (λ s. IsShadow spacing slab.now other.now s) }
{
    let across = span_gap(slab.x0, slab.x1, other.x0, other.x1);
    match reach(spacing, across) {
        None => None,
        Some(r) => Some(Span {
            from: other.y0 as i64 - 1 - r as i64,
            to: other.y1 as i64 + 1 + r as i64,
        }),
    }
}

/// The lower of two rows.
fn lower(a: i64, b: i64) -> i64
    ensures { ((a ≤ℤ b) × (result ≡ a)) ⊎ ((b ≤ℤ a) × (result ≡ b)) }
{
    if a <= b { a } else { b }
}

/// The higher of two rows.
fn higher(a: i64, b: i64) -> i64
    ensures { ((b ≤ℤ a) × (result ≡ a)) ⊎ ((a ≤ℤ b) × (result ≡ b)) }
{
    if b <= a { a } else { b }
}

/// Adds a span, where it has a row.
fn add_span(spans: &mut Vec<Span>, from: i64, to: i64) -> Result<(), AllocError>
    ensures { OnOk result (AddsSpan from to spans.old.items spans.new.items) }
{
    if to <= from {
        return Ok(());
    }
    spans.push(Span { from, to })?;
    Ok(())
}

/// Lists the longest spans between rows `low` and `high` that no span meets, in place of what `free` had. The error: out of memory.
pub fn gaps(free: &mut Vec<Span>, spans: &[Span], low: i64, high: i64) -> Result<(), AllocError>
    requires tall { AreTall spans.now }
    requires rise { RiseByFrom spans.now }
    ensures { OnOk result ((g : Span) → Contains free.new.items g ↔ IsGap low high spans.now g) }
{
    free.clear();
    let mut at = low;
    for s in spans {
        let end = lower(s.from, high);
        add_span(free, at, end)?;
        at = higher(at, s.to);
    }
    add_span(free, at, high)?;
    Ok(())
}
