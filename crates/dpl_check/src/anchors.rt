//! Marked squares, by which pieces are joined to anchors.
ghost use Rattle.std.specs.Prelude.{◌↔◌, IsTrue, IfOk};
ghost use Rattle.dpl_spec_split.specs.Marks.{asked};
ghost use Rattle.dpl_cert.specs.Grammar.{IsPoint};
ghost use Rattle.dpl_spec_verdict.specs.Conflicts.{AreAsked, marked_against};
ghost use Rattle.dpl_check.specs.Anchors.{marks_of, FixTheSame};

use dpl_base::Pt;
use dpl_nearest::unit;
use dpl_slabs::Slabs;
use dpl_tree::SetTree;
use std::alloc::{AllocError, Global};

/// The squares that are fixed to mask A, and those that are fixed to mask B.
#[derive(Drop)]
pub(crate) struct MarkTrees {
    a: SetTree,
    b: SetTree,
}

/// The trees of both sets, where marks are asked for.
pub(crate) fn mark_trees(
    alloc: Global,
    mark_a: &Slabs,
    mark_b: &Slabs,
    marks: bool,
) -> Result<Option<MarkTrees>, AllocError>
    ensures { IfOk result (λ trees. FixTheSame (marks_of trees) (asked marks mark_a.now mark_b.now)) }
{
    if !marks {
        return Ok(None);
    }
    let a = SetTree::of(alloc, mark_a)?;
    let b = SetTree::of(alloc, mark_b)?;
    Ok(Some(MarkTrees { a, b }))
}

/// Whether marks are asked for, and so there are anchors.
pub(crate) fn has_anchors(marks: &Option<MarkTrees>) -> bool
    ensures { IsTrue result ↔ AreAsked (marks_of marks.now) }
{
    match marks {
        Some(_) => true,
        None => false,
    }
}

/// Whether the square is fixed to the other mask than the anchor's, which is B's or A's.
pub(crate) fn is_marked_against(marks: &Option<MarkTrees>, b: bool, p: Pt) -> bool
    requires { IsPoint p }
    ensures { IsTrue result ↔ marked_against (marks_of marks.now) b p }
{
    let Some(trees) = marks else {
        return false;
    };
    let Some(square) = unit(p) else {
        unreachable!()
    };
    if b {
        return trees.a.meets(&square);
    }
    trees.b.meets(&square)
}
