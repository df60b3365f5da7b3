//! `dpl`, a double-patterning mask decomposer.
#![tactic(auto)]

ghost use Rattle.std.specs.Prelude.{◌≡◌, IfOk, map, string_bytes};
ghost use Rattle.std.specs.Vec.Iter.{into_iter_items};
ghost use Rattle.std.specs.Process.{exit_status};
ghost use Rattle.clap.specs.Walk.{texts};
ghost use Rattle.dpl_run.specs.Outcome.{code_of};
ghost use Rattle.dpl_run.specs.declared.status.Status.{Status};
ghost use Rattle.dpl.specs.Ends.{IsEnd, words_of};

use dpl_files::FileHost;
use dpl_pool::OpenGate;
use dpl_run::{Status, run};
use std::alloc::{AllocError, Global};
use std::process::ExitCode;
use std::sync::Wait;
use std::thread::Threads;
use std::{env, io};

fn main(rt: HostRuntime) -> ExitCode {
    ended(&rt, &rt, env::args(&rt))
}

/// Does what the words of the command line ask for, and gives the code with which the program ends. Where memory ran out, standard error is told.
fn ended<R: Threads + Wait + Sync>(
    threads: &R,
    rt: &HostRuntime,
    words: io::Result<env::Args>,
) -> ExitCode
    // It is the code of a status with which a run may end on these words.
    ensures { (status : Status) × IsEnd (words_of words) status × (exit_status result ≡ code_of status) }
{
    let status = answered(threads, rt, words);
    if status == Status::NoMemory {
        let _ = eprintln!(rt; "dpl: out of memory");
    }
    exit_code(status)
}

/// The code with which the program ends: that of the status that is given.
fn exit_code(status: Status) -> ExitCode
    ensures { exit_status result ≡ code_of status }
{
    ExitCode::from(status.code())
}

/// Does what the words ask for. Words that aren't UTF-8 are no command.
fn answered<R: Threads + Wait + Sync>(
    threads: &R,
    rt: &HostRuntime,
    words: io::Result<env::Args>,
) -> Status
    ensures { IsEnd (words_of words) result }
{
    match words {
        Ok(words) => run_on(threads, rt, words),
        Err(error) if error.kind() == io::ErrorKind::OutOfMemory => Status::NoMemory,
        Err(_) => run_words(threads, rt, &["dpl"]),
    }
}

/// Does what the words ask for, which are kept first.
fn run_on<R: Threads + Wait + Sync>(threads: &R, rt: &HostRuntime, words: env::Args) -> Status
    // All words are asked for.
    ensures { IsEnd (map string_bytes (into_iter_items words)) result }
{
    let Ok(kept) = kept(rt.alloc(), words) else {
        return Status::NoMemory;
    };
    let Ok(texts) = texts_of(rt.alloc(), &kept) else {
        return Status::NoMemory;
    };
    run_words(threads, rt, texts.as_slice())
}

/// The words in a list.
fn kept(alloc: Global, words: env::Args) -> Result<Vec<String>, AllocError>
    ensures { IfOk result (λ v. v.items ≡ into_iter_items words) }
{
    words.collect(alloc)
}

/// The words as texts.
fn texts_of(alloc: Global, words: &[String]) -> Result<Vec<&str>, AllocError>
    ensures { IfOk result (λ v. texts v.items ≡ map string_bytes words.now) }
{
    let mut texts = Vec::new(alloc);
    for word in words {
        texts.push(word.as_str())?;
    }
    Ok(texts)
}

/// Does what the words ask for, on the files of the system, with threads by `threads`. Standard error is told which call failed, and why, and where the layer is empty.
fn run_words<'a, R: Threads + Wait + Sync>(
    threads: &R,
    rt: &'a HostRuntime,
    words: &'a [&'a str],
) -> Status
    ensures { IsEnd (texts words.now) result }
{
    let mut host = FileHost::new(rt, words);
    let status = run(threads, rt.alloc(), words, &mut host, &OpenGate);
    if let Some(fault) = host.fault() {
        let _ = eprintln!(rt; "dpl: {fault}");
    } else if host.is_empty() {
        let _ = eprintln!(rt; "dpl: the layer is empty");
    }
    status
}
