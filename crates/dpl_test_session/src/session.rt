//! Edits one after the other, each answer compared with that of a session opened on the edited layer.
ghost use Rattle.std.specs.Prelude.{◌≡◌, ◌<◌, IfSome};
ghost use Rattle.dpl_spec_edits.specs.Text.{IsEdit};

use dpl_base::{Id, Spacing};
use dpl_edits::{Edit, read_edits};
use dpl_orient::Colours;
use dpl_session::{Answer, Session, Steps};
use dpl_slabs::{Parts, Slabs};
use std::alloc::{AllocError, Global};
use std::marker::Brand;
use std::sync::ledger::{Blank, Ledger};
use std::test::*;

const SPACING: Spacing = Spacing {
    rule: 30,
    corner: 30,
};

/// Edits, one after the other, and whether the conflicts then have an odd cycle.
static EDITS: [(&str, bool); 8] = [
    ("add 0 0 10 10\n", false),
    ("add 20 0 30 10\n", false),
    ("add 10 20 20 30\n", true),
    ("add 2 2 5 5\n", true),
    ("add 5000 5000 9000 5010\n", true),
    ("remove 10 20 20 30\n", false),
    ("add 5000 5020 9000 5030\n", false),
    ("remove 0 0 9000 9000\n", false),
];

/// The first edit that a text lists.
fn edit_of(alloc: Global, text: &str) -> Option<Edit>
    ensures { IfSome result IsEdit }
{
    match read_edits(alloc, text.as_bytes()) {
        Ok(edits) => edits.first().copied(),
        Err(_) => None,
    }
}

/// Whether the pieces have the same squares.
fn are_same(a: &Parts, b: &Parts) -> bool {
    let (sets, others) = (a.items(), b.items());
    if sets.len() != others.len() {
        return false;
    }
    for k in 0..sets.len() {
        if !sets[k].equal(&others[k]) {
            return false;
        }
    }
    true
}

/// Whether an answer has these pieces and colours.
fn is_done(answer: &Answer, pieces: &Parts, colours: &Colours) -> bool {
    match answer {
        Answer::Done {
            pieces: others,
            colours: masks,
        } => are_same(pieces, others) && colours.items() == masks.items(),
        Answer::Odd { .. } => false,
    }
}

/// Whether an answer has these pieces and this cycle.
fn is_odd(answer: &Answer, pieces: &Parts, cycle: &[Id]) -> bool {
    match answer {
        Answer::Done { .. } => false,
        Answer::Odd {
            pieces: others,
            cycle: numbers,
        } => are_same(pieces, others) && cycle == *numbers,
    }
}

/// Whether the answers are one, and have an odd cycle exactly where it is said.
fn is_told(answer: &Answer, other: &Answer, odd: bool) -> bool {
    match answer {
        Answer::Done { pieces, colours } => !odd && is_done(other, pieces, colours),
        Answer::Odd { pieces, cycle } => odd && is_odd(other, pieces, cycle),
    }
}

/// A session of a layer.
fn opened<L: Ledger>(
    alloc: Global,
    layer: &Slabs,
    steps: &mut Steps<L>,
) -> Result<Session, AllocError> {
    Session::open(alloc, layer, SPACING, 4, 64, steps)
}

/// Whether the answer of a session is that of one opened on its layer, with an odd cycle exactly where it is said.
fn is_kept<L: Ledger>(
    alloc: Global,
    session: &Session,
    odd: bool,
    steps: &mut Steps<L>,
) -> Result<bool, AllocError> {
    let other = opened(alloc, session.layer(), steps)?;
    Ok(is_told(&session.answer(), &other.answer(), odd))
}

/// Makes the edit of a text, and tells whether the answer is kept.
fn keeps_answer<L: Ledger>(
    alloc: Global,
    session: &mut Session,
    text: &str,
    odd: bool,
    steps: &mut Steps<L>,
) -> Result<bool, AllocError> {
    let Some(edit) = edit_of(alloc, text) else {
        return Ok(false);
    };
    session.edit(alloc, edit, steps)?;
    is_kept(alloc, session, odd, steps)
}

/// The first edit of the table whose answer a session doesn't keep.
fn first_wrong<L: Ledger>(
    alloc: Global,
    session: &mut Session,
    steps: &mut Steps<L>,
) -> Result<Option<usize>, AllocError> {
    for k in 0..EDITS.len() {
        let (text, odd) = EDITS[k];
        if !keeps_answer(alloc, session, text, odd, steps)? {
            return Ok(Some(k));
        }
    }
    Ok(None)
}

/// The first edit of the table whose answer a session of no squares doesn't keep. Steps are counted in a ledger of so many parts.
fn first_wrong_in<L: Ledger>(alloc: Global, blank: Blank) -> Result<Option<usize>, AllocError>
    requires name { blank.name ≡ L.name }
    requires parts { blank.parts ≡ L.parts }
    requires some { 0 < blank.parts }
{
    let mut steps = Steps::<L>::new(blank);
    let mut session = opened(alloc, &Slabs::empty(alloc), &mut steps)?;
    first_wrong(alloc, &mut session, &mut steps)
}

#[test]
fn answers_are_those_of_the_edited_layer(rt: HostRuntime) -> Result<(), Fail> {
    let wrong = first_wrong_in::<Brand>(rt.alloc(), Blank::new(1))?;
    assert_eq!(rt; wrong, None);
    Ok(())
}
