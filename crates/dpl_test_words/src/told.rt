//! Requests as text, in the form that the cases have.

use dpl_test_sample::words;
use dpl_words::{
    BatchOptions, CheckOptions, DemoOptions, EditOptions, Request, SplitOptions, WordsFault,
    read_words,
};
use std::alloc::{AllocError, Global};
use std::test::Fail;

/// What a request asks for.
#[derive(Clone, Copy)]
struct Told<'a> {
    command: &'a str,
    numbers: &'a [u64],
    top: Option<&'a str>,
    marks: [Option<u16>; 2],
    fewer: bool,
    names: &'a [&'a str],
    layers: &'a [u16],
}

/// The first line of cases whose words ask for something else than it says.
pub fn first_wrong(alloc: Global, cases: &str) -> Result<Option<&str>, Fail> {
    for line in cases.lines() {
        if !line.is_empty() && !line.starts_with('#') && !is_right(alloc, line)? {
            return Ok(Some(line));
        }
    }
    Ok(None)
}

fn is_right(alloc: Global, line: &str) -> Result<bool, Fail> {
    match line.split_once(" => ") {
        Some((words, want)) => asks(alloc, words, want),
        None => Ok(false),
    }
}

/// Whether the words of a line ask for this.
pub fn asks(alloc: Global, line: &str, want: &str) -> Result<bool, Fail> {
    let words = words(alloc, line)?;
    match read_words(alloc, &words) {
        Ok(request) => Ok(told_request(alloc, &request)?.as_str() == want),
        Err(WordsFault::Usage) => Ok(want == "usage"),
        Err(WordsFault::NoMemory) => Err("there is memory".into()),
    }
}

fn told_request(alloc: Global, request: &Request<'_>) -> Result<String, AllocError> {
    match request {
        Request::Split(options) => told_split(alloc, options),
        Request::Check(options) => told_check(alloc, options),
        Request::Demo(options) => told_demo(alloc, options),
        Request::Batch(options) => told_batch(alloc, options),
        Request::Edit(options) => told_edit(alloc, options),
    }
}

fn told_split(alloc: Global, options: &SplitOptions<'_>) -> Result<String, AllocError> {
    let told = Told {
        command: "split",
        numbers: &[
            u64::from(options.layer),
            u64::from(options.datatype),
            u64::from(options.rule),
            u64::from(options.overlap),
            u64::from(options.corner),
            u64::from(options.a),
            u64::from(options.b),
            u64::from(options.tile),
            u64::from(options.workers),
        ],
        top: options.top,
        marks: [options.mark_a, options.mark_b],
        fewer: options.fewer,
        names: &[options.input, options.output, options.certificate],
        layers: &[],
    };
    text_of(alloc, &told)
}

/// `check` has no tile and no workers.
fn told_check(alloc: Global, options: &CheckOptions<'_>) -> Result<String, AllocError> {
    let told = Told {
        command: "check",
        numbers: &[
            u64::from(options.layer),
            u64::from(options.datatype),
            u64::from(options.rule),
            u64::from(options.overlap),
            u64::from(options.corner),
            u64::from(options.a),
            u64::from(options.b),
        ],
        top: options.top,
        marks: [options.mark_a, options.mark_b],
        fewer: false,
        names: &[options.input, options.output, options.certificate],
        layers: &[],
    };
    text_of(alloc, &told)
}

fn told_demo(alloc: Global, options: &DemoOptions) -> Result<String, AllocError> {
    let (seed, rows) = (options.seed, options.rows);
    let (tile, workers) = (options.tile, options.workers);
    format!(in alloc; "demo {seed} {rows} {tile} {workers}")
}

fn told_batch(alloc: Global, options: &BatchOptions<'_>) -> Result<String, AllocError> {
    let told = Told {
        command: "batch",
        numbers: &[
            u64::from(options.datatype),
            u64::from(options.rule),
            u64::from(options.overlap),
            u64::from(options.corner),
            u64::from(options.a),
            u64::from(options.b),
            u64::from(options.tile),
            u64::from(options.workers),
        ],
        top: options.top,
        marks: [None, None],
        fewer: false,
        names: &[options.input, options.prefix],
        layers: options.layers.as_slice(),
    };
    text_of(alloc, &told)
}

fn told_edit(alloc: Global, options: &EditOptions<'_>) -> Result<String, AllocError> {
    let told = Told {
        command: "edit",
        numbers: &[
            u64::from(options.layer),
            u64::from(options.datatype),
            u64::from(options.rule),
            u64::from(options.overlap),
            u64::from(options.corner),
            u64::from(options.a),
            u64::from(options.b),
            u64::from(options.tile),
        ],
        top: options.top,
        marks: [None, None],
        fewer: false,
        names: &[
            options.input,
            options.edits,
            options.output,
            options.certificate,
        ],
        layers: &[],
    };
    text_of(alloc, &told)
}

fn text_of(alloc: Global, told: &Told<'_>) -> Result<String, AllocError> {
    let mut text = String::from_str(alloc, told.command)?;
    push_told(&mut text, told)?;
    Ok(text)
}

fn push_told(text: &mut String, told: &Told<'_>) -> Result<(), AllocError> {
    for number in told.numbers {
        write!(text, " {number}")?;
    }
    push_name(text, " top=", told.top)?;
    push_layer(text, " mark-a=", told.marks[0])?;
    push_layer(text, " mark-b=", told.marks[1])?;
    push_name(text, " fewer", told.fewer.then_some(""))?;
    for name in told.names {
        push_name(text, " of ", Some(name))?;
    }
    for layer in told.layers {
        push_layer(text, " layer ", Some(*layer))?;
    }
    Ok(())
}

fn push_name(text: &mut String, head: &str, name: Option<&str>) -> Result<(), AllocError> {
    match name {
        Some(name) => write!(text, "{head}{name}"),
        None => Ok(()),
    }
}

fn push_layer(text: &mut String, head: &str, layer: Option<u16>) -> Result<(), AllocError> {
    match layer {
        Some(layer) => write!(text, "{head}{layer}"),
        None => Ok(()),
    }
}
