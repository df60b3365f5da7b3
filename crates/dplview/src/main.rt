//! `dplview`, which shows what a layout holds for double patterning.
#![tactic(auto)]

ghost use Rattle.std.specs.Prelude.{◌≤◌, IfOk, IfSome, length};
ghost use Rattle.dpl_layer.specs.Reading.{limit};
ghost use Rattle.dpl_view.specs.Findings.{IsInRange};

use dpl_cert::Name;
use dpl_host::MAX_BYTES;
use dpl_pool::OpenGate;
use dpl_show::{
    conflict_json, conflict_line, conflict_lines, content_json, content_lines, cycle_markers,
    no_masks_json, refused_json, refused_line, stitch_json, stitch_lines, stitch_markers,
};
use dpl_view::{
    Finding, Look, Seams, Split, Status, find, find_stitches, look_into, status_by, status_by_split,
};
use dpl_view_words::{FileOptions, Request, SplitOptions, read_words};
use std::alloc::{AllocError, Global};
use std::fs::File;
use std::io::{ErrorKind, Read};
use std::process::ExitCode;
use std::sync::Wait;
use std::thread::Threads;
use std::{env, fs, io};

/// The version that `--version` tells, as in the file VERSION.
const VERSION: &str = "0.9.0";

fn main(rt: HostRuntime) -> ExitCode {
    let status = match words_of(&rt) {
        Ok(words) => run(&rt, &rt, &words),
        Err(error) => failed(&rt, "the command line", &error, Status::Usage),
    };
    if status == Status::NoMemory {
        let _ = eprintln!(rt; "dplview: out of memory");
    }
    ExitCode::from(status.code())
}

/// The words of the command line.
fn words_of(rt: &HostRuntime) -> io::Result<Vec<String>> {
    let words = env::args(rt)?.collect(rt.alloc())?;
    Ok(words)
}

/// Does what the words ask for, with threads by `threads`.
fn run<R: Threads + Wait + Sync>(threads: &R, rt: &HostRuntime, words: &[String]) -> Status {
    let mut texts = Vec::new(rt.alloc());
    for word in words {
        if texts.push(word.as_str()).is_err() {
            return Status::NoMemory;
        }
    }
    match read_words(rt.alloc(), VERSION, texts.as_slice()) {
        Ok(Request::Layers(options)) => layers(rt, &options),
        Ok(Request::Conflicts(options)) if is_apart(&options) => conflicts(threads, rt, &options),
        Ok(Request::Stitches(options)) if is_apart(&options) => stitches(threads, rt, &options),
        Ok(_) => {
            let _ = eprintln!(rt; "dplview: IN and OUT are one file");
            Status::Usage
        }
        Err(error) => told(rt, &error),
    }
}

/// Whether OUT, if it is given, has another name than IN.
fn is_apart(options: &SplitOptions<'_>) -> bool {
    match options.output {
        Some(output) => output != options.input,
        None => true,
    }
}

/// Tells help or version, or what is wrong with the words.
fn told(rt: &HostRuntime, error: &clap::Error) -> Status {
    match error.kind() {
        clap::error::ErrorKind::OutOfMemory => return Status::NoMemory,
        _ => {}
    }
    if error.print(rt).is_err() {
        return Status::WriteFault;
    }
    if error.use_stderr() {
        Status::Usage
    } else {
        Status::Done
    }
}

/// Reads IN, writes the marker database, and says the cycles.
fn conflicts<R: Threads + Wait + Sync>(
    threads: &R,
    rt: &HostRuntime,
    options: &SplitOptions<'_>,
) -> Status
    requires { IsInRange options.now.order }
{
    match read_file(rt, options.input) {
        Ok(Some(bytes)) => match find(threads, rt.alloc(), &options.order, bytes, &OpenGate) {
            Ok(finding) => shown(rt, options, &finding).unwrap_or(Status::NoMemory),
            Err(_) => Status::NoMemory,
        },
        Ok(None) => too_large(rt, options.json),
        Err(error) => failed(rt, options.input, &error, Status::ReadFault),
    }
}

/// Reads IN, writes the marker database, and says the stitches.
fn stitches<R: Threads + Wait + Sync>(
    threads: &R,
    rt: &HostRuntime,
    options: &SplitOptions<'_>,
) -> Status
    requires { IsInRange options.now.order }
{
    match read_file(rt, options.input) {
        Ok(Some(bytes)) => match find_stitches(
            threads,
            rt.alloc(),
            &options.order,
            bytes,
            &OpenGate,
        ) {
            Ok(found) => seams_shown(rt, options, &found).unwrap_or(Status::NoMemory),
            Err(_) => Status::NoMemory,
        },
        Ok(None) => too_large(rt, options.json),
        Err(error) => failed(rt, options.input, &error, Status::ReadFault),
    }
}

/// Reads IN, and says what it holds.
fn layers(rt: &HostRuntime, options: &FileOptions<'_>) -> Status {
    match read_file(rt, options.input) {
        Ok(Some(bytes)) => match look_into(rt.alloc(), options.top, bytes.as_slice()) {
            Ok(found) => look_shown(rt, options, &found).unwrap_or(Status::NoMemory),
            Err(_) => Status::NoMemory,
        },
        Ok(None) => too_large(rt, options.json),
        Err(error) => failed(rt, options.input, &error, Status::ReadFault),
    }
}

/// Says that IN is too large.
fn too_large(rt: &HostRuntime, json: bool) -> Status {
    match refusal(rt.alloc(), json, Name::TooLarge, MAX_BYTES as u64) {
        Ok(text) => said(rt, text.as_str(), Status::Refused),
        Err(_) => Status::NoMemory,
    }
}

/// The bytes of a file, or None where they are too many.
fn read_file(rt: &HostRuntime, name: &str) -> io::Result<Option<Vec<u8>>>
    ensures { IfOk result (λ found. IfSome found (λ bytes. length bytes.items ≤ limit)) }
{
    let mut file = File::open(rt, name)?;
    if file.metadata()?.len() > MAX_BYTES as u64 {
        return Ok(None);
    }
    let mut bytes = Vec::new(rt.alloc());
    file.read_to_end(&mut bytes)?;
    if bytes.len() > MAX_BYTES {
        return Ok(None);
    }
    Ok(Some(bytes))
}

/// Writes and says the cycles that were found. All is made before the first of it is written.
fn shown(
    rt: &HostRuntime,
    options: &SplitOptions<'_>,
    finding: &Finding,
) -> Result<Status, AllocError> {
    let alloc = rt.alloc();
    let text = match finding {
        Finding::Refused { name, at } => refusal(alloc, options.json, *name, *at)?,
        Finding::Cycles(found) if options.json => conflict_json(alloc, &found.tangles)?,
        Finding::Cycles(found) => conflict_lines(alloc, &found.tangles)?,
    };
    if let (Some(name), Finding::Cycles(found)) = (options.output, finding) {
        let markers = cycle_markers(alloc, found)?;
        if let Err(error) = fs::write(rt, name, markers.as_slice()) {
            return Ok(failed(rt, name, &error, Status::WriteFault));
        }
    }
    Ok(said(rt, text.as_str(), status_by(finding)))
}

/// Writes and says the stitches that were found. All is made before the first of it is written.
fn seams_shown(
    rt: &HostRuntime,
    options: &SplitOptions<'_>,
    found: &Split,
) -> Result<Status, AllocError> {
    let alloc = rt.alloc();
    let text = match found {
        Split::Refused { name, at } => refusal(alloc, options.json, *name, *at)?,
        Split::Answered { seams, .. } => seam_text(alloc, options, seams)?,
    };
    if let (
        Some(name),
        Split::Answered {
            copied,
            seams: Seams::Stitches(stitches),
        },
    ) = (options.output, found)
    {
        let markers = stitch_markers(alloc, copied.as_slice(), stitches.items())?;
        if let Err(error) = fs::write(rt, name, markers.as_slice()) {
            return Ok(failed(rt, name, &error, Status::WriteFault));
        }
    }
    Ok(said(rt, text.as_str(), status_by_split(found)))
}

/// What is said of stitches, or of a layer without masks.
fn seam_text(
    alloc: Global,
    options: &SplitOptions<'_>,
    seams: &Seams,
) -> Result<String, AllocError> {
    let overlap = options.order.overlap;
    match seams {
        Seams::Stitches(found) if options.json => stitch_json(alloc, found.items(), overlap),
        Seams::Stitches(found) => stitch_lines(alloc, found.items(), overlap),
        Seams::Conflict(pieces) if options.json => no_masks_json(alloc, *pieces),
        Seams::Conflict(pieces) => conflict_line(alloc, *pieces),
    }
}

/// Says what a file holds.
fn look_shown(
    rt: &HostRuntime,
    options: &FileOptions<'_>,
    found: &Look,
) -> Result<Status, AllocError> {
    let alloc = rt.alloc();
    match found {
        Look::Refused { name, at } => {
            let text = refusal(alloc, options.json, *name, *at)?;
            Ok(said(rt, text.as_str(), Status::Refused))
        }
        Look::Held(contents) => {
            let text = if options.json {
                content_json(alloc, contents)?
            } else {
                content_lines(alloc, contents)?
            };
            Ok(said(rt, text.as_str(), Status::Done))
        }
    }
}

/// What is said of a layout that is refused.
fn refusal(alloc: Global, json: bool, name: Name, at: u64) -> Result<String, AllocError> {
    if json {
        refused_json(alloc, name, at)
    } else {
        refused_line(alloc, name, at)
    }
}

/// Says a text; the status, unless that fails.
fn said(rt: &HostRuntime, text: &str, status: Status) -> Status {
    match print!(rt; "{text}") {
        Ok(_) => status,
        Err(error) => failed(rt, "standard output", &error, Status::WriteFault),
    }
}

/// Tells standard error of a call that failed.
fn failed(rt: &HostRuntime, place: &str, error: &io::Error, status: Status) -> Status {
    if error.kind() == ErrorKind::OutOfMemory {
        return Status::NoMemory;
    }
    let _ = eprintln!(rt; "dplview: {place}: {error}");
    status
}
