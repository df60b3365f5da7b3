//! Words and what they ask for.

use crate::cases::{BATCHES, CHECKS, CORNERS, DEMOS, EDITS, FEWER, MARKERS, SPLITS};
use crate::told::{asks, first_wrong};
use dpl_words::{WordsFault, read_words};
use std::alloc::{AllocError, Global};
use std::test::Fail;

#[test]
fn lines_ask_for_what_they_say(rt: HostRuntime) -> Result<(), Fail> {
    let wrong = first_wrong(rt.alloc(), SPLITS)?;
    assert_eq!(rt; wrong, None);
    let none = read_words(rt.alloc(), &[]);
    assert!(rt; matches!(none, Err(WordsFault::Usage)));
    let other = "dpl demo --seed 0 --rows 1 => demo 0 2 4096 4";
    assert_eq!(rt; first_wrong(rt.alloc(), other)?, Some(other));
    Ok(())
}

#[test]
fn checks_have_neither_tiles_nor_workers(rt: HostRuntime) -> Result<(), Fail> {
    let wrong = first_wrong(rt.alloc(), CHECKS)?;
    assert_eq!(rt; wrong, None);
    Ok(())
}

/// Without a corner rule of its own it is the rule.
#[test]
fn a_corner_rule_goes_up_to_the_rule(rt: HostRuntime) -> Result<(), Fail> {
    let wrong = first_wrong(rt.alloc(), CORNERS)?;
    assert_eq!(rt; wrong, None);
    Ok(())
}

#[test]
fn demo_has_a_seed_and_rows(rt: HostRuntime) -> Result<(), Fail> {
    let wrong = first_wrong(rt.alloc(), DEMOS)?;
    assert_eq!(rt; wrong, None);
    Ok(())
}

#[test]
fn lines_name_layers_of_markers(rt: HostRuntime) -> Result<(), Fail> {
    let wrong = first_wrong(rt.alloc(), MARKERS)?;
    assert_eq!(rt; wrong, None);
    Ok(())
}

#[test]
fn lines_ask_for_fewer_stitches(rt: HostRuntime) -> Result<(), Fail> {
    let wrong = first_wrong(rt.alloc(), FEWER)?;
    assert_eq!(rt; wrong, None);
    Ok(())
}

#[test]
fn batches_name_layers(rt: HostRuntime) -> Result<(), Fail> {
    let wrong = first_wrong(rt.alloc(), BATCHES)?;
    assert_eq!(rt; wrong, None);
    Ok(())
}

#[test]
fn edits_have_four_files(rt: HostRuntime) -> Result<(), Fail> {
    let wrong = first_wrong(rt.alloc(), EDITS)?;
    assert_eq!(rt; wrong, None);
    Ok(())
}

/// A text with so many layers behind it, from 0 on.
fn with_layers(alloc: Global, head: &str, between: &str, count: u32) -> Result<String, AllocError> {
    let mut text = String::from_str(alloc, head)?;
    for layer in 0..count {
        write!(text, "{between}{layer}")?;
    }
    Ok(text)
}

#[test]
fn batches_have_at_most_64_layers(rt: HostRuntime) -> Result<(), Fail> {
    let alloc = rt.alloc();
    let head = "dpl batch --rule 30 --overlap 10 i p";
    let told = "batch 0 30 10 30 101 102 4096 4 of i of p";
    let most = with_layers(alloc, head, " ", 64)?;
    let want = with_layers(alloc, told, " layer ", 64)?;
    assert!(rt; asks(alloc, most.as_str(), want.as_str())?);
    let more = with_layers(alloc, head, " ", 65)?;
    assert!(rt; asks(alloc, more.as_str(), "usage")?);
    Ok(())
}
