//! What `demo` makes of its numbers.
ghost use Rattle.std.specs.Prelude.{◌≡◌, ℕ, List, IfOk};
ghost use Rattle.dpl_words.specs.Meaning.{demo_view};
ghost use Rattle.dpl_words.specs.Ranges.{AreInRangeForDemo};
ghost use Rattle.dpl_answer.specs.View.{flat_view};
ghost use Rattle.dpl_run.specs.Demo.{IsDemo, demo_plan};
ghost use Rattle.dpl_decide.specs.Deciding.{Decides};
ghost use Rattle.dpl_decide.specs.View.{decision_view};
ghost use Rattle.dpl_run.specs.View.{output_view};

use crate::output::{Output, said};
use crate::status::Status;
use dpl_answer::{Decomposed, Sharing};
use dpl_base::Spacing;
use dpl_decide::{Decision, Order, Recipe, decide};
use dpl_demo::demo_bytes;
use dpl_layer::{LayerChoice, MarkedChoice};
use dpl_pool::Gate;
use dpl_texts::{conflict_line, demo_line, refused_line};
use dpl_words::DemoOptions;
use std::alloc::{AllocError, Global};
use std::sync::Wait;
use std::thread::Threads;

/// How far apart the features of a made-up layout are on one mask, in database units.
const RULE: u32 = 30;

/// How long a stitch of a made-up layout is, in database units.
const OVERLAP: u32 = 10;

/// Decides the made-up layout of a seed and a number of rows, and says what comes of it.
pub(crate) fn demo_output<'a, R: Threads + Wait + Sync, G: Gate + Sync>(
    rt: &R,
    alloc: Global,
    options: &DemoOptions,
    gate: &G,
) -> Result<Output<'a>, AllocError>
    requires { AreInRangeForDemo (demo_view options.now) }
    ensures { IfOk result (λ x. IsDemo (demo_view options.now) (output_view x)) }
{
    let bytes = demo_bytes(alloc, options.seed, options.rows)?;
    let order = Order {
        choice: MarkedChoice {
            layer: LayerChoice {
                top: None,
                layer: 1,
                datatype: 0,
            },
            mark_a: None,
            mark_b: None,
        },
        recipe: Recipe {
            spacing: Spacing::uniform(RULE),
            overlap: OVERLAP,
            fewer: false,
            sharing: Sharing {
                tile: options.tile,
                workers: options.workers,
            },
        },
    };
    let decision = decide(rt, alloc, &order, bytes, gate)?;
    shown(alloc, &decision)
}

/// What is said of a decision.
fn shown<'a>(alloc: Global, decision: &Decision) -> Result<Output<'a>, AllocError>
    ensures { IfOk result (λ x. output_view x ≡ demo_plan (decision_view decision.now)) }
{
    match decision {
        Decision::Refused { name, at } => {
            let line = refused_line(alloc, *name, *at)?;
            Ok(said(alloc, Status::Refused, line))
        }
        Decision::Answered { answer, .. } => shown_answer(alloc, answer),
    }
}

/// What is said of the answer to a layer.
fn shown_answer<'a>(alloc: Global, answer: &Decomposed) -> Result<Output<'a>, AllocError>
    ensures { IfOk result (λ x. (copied : List ℕ) → output_view x ≡ demo_plan (Decides copied (flat_view answer.now))) }
{
    match answer {
        Decomposed::Masks(painted) => {
            let line = demo_line(
                alloc,
                &painted.head,
                painted.stitches.items().len(),
                painted.a.rects().len(),
                painted.b.rects().len(),
            )?;
            Ok(said(alloc, Status::Done, line))
        }
        Decomposed::Cycle(clash) => {
            let line = conflict_line(alloc, clash.cycle.items().len())?;
            Ok(said(alloc, Status::Conflict, line))
        }
    }
}
