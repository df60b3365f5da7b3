//! The whole program over an outside.
ghost use Rattle.std.specs.Prelude.{◌≡◌, ◌≤◌, ◌⊎◌, IfErr, IfOk, IsErrOf, None, OnOk, Some, is_some, true};
ghost use Rattle.clap.specs.Walk.{texts};
ghost use Rattle.dpl_host.specs.Calls.{Logged};
ghost use Rattle.dpl_host.specs.Whole.{HasReadCause};
ghost use Rattle.dpl_words.specs.Meaning.{request_of, request_view};
ghost use Rattle.dpl_words.specs.Ranges.{IsApart, IsInRange};
ghost use Rattle.dpl_run.specs.Calls.{AreCallsOf, AreReadsFor};
ghost use Rattle.dpl_run.specs.Outcome.{IsStill, TellsFaults, is_answered, says};
ghost use Rattle.dpl_run.specs.Parted.{IsParted};
ghost use Rattle.dpl_run.specs.Program.{IsCutShort, IsMade, IsOutcome};
ghost use Rattle.dpl_texts.specs.Texts.{usage_line as usage_line_of};
ghost use Rattle.dpl_run.specs.View.{output_view};

use crate::batch::batch_output;
use crate::check::check_output;
use crate::demo::demo_output;
use crate::edit::edit_output;
use crate::input::read_nothing;
use crate::output::{Output, perform, said};
use crate::split::split_output;
use crate::status::Status;
use dpl_host::{Host, ReadFault};
use dpl_pool::Gate;
use dpl_texts::usage_line;
use dpl_words::{Request, WordsFault, read_words};
use std::alloc::{AllocError, Global};
use std::sync::Wait;
use std::thread::Threads;

/// Does what the words of a command line ask for, by `host`, and answers how the run ended. The first word is the program's name; `USAGE` gives the others.
///
/// `split` reads the layout IN (GDSII Stream Format, Release 6, at most 268435456 bytes) and decomposes one layer of its top structure into two masks on which features are at least `--rule` database units apart, and from corner to corner at least `--corner`, with stitches `--overlap` database units long (Kahng, Park, Xu and Yao, ICCAD 2008). What of the layer lies under a marker of the layer `--mark-a` is on mask A alone, and under one of `--mark-b` on mask B alone. It writes the masks to OUT, then their certificate to CERT; where the conflict graph has an odd cycle, or the layout a fault, the certificate alone. Then it says one line. `--tile` and `--workers` change nothing of what is written.
///
/// `check` reads the layout IN, the certificate CERT and, if it is one of masks, their file OUT, and says of masks of any tool whether they are right, and of an odd cycle whether it is there. `demo` splits a layout that is made up of two numbers. Both write nothing, and say one line.
///
/// `batch` does for each LAYER what `split` does, with the files PREFIX.LAYER.gds and PREFIX.LAYER.cert: it reads IN once, and one pool of workers has the tiles of all layers that have some. It writes the files in the order of the layers, and then says a line for each.
///
/// `edit` reads the layout IN and, where that has the layer, the text EDITS (at most 268435456 bytes), which adds rectangles to the layer and takes rectangles away, a line for each. It does with the edited layer what `split` does with a layer, and writes the same files; where EDITS is refused it writes none, and says one line.
///
/// All of it is made before the first byte is written: where memory runs out or the read fails, nothing is written or said. Where a write fails, a prefix of it was.
pub fn run<'a, R: Threads + Wait + Sync, H: Host, G: Gate + Sync>(
    rt: &R,
    alloc: Global,
    words: &'a [&'a str],
    host: &mut H,
    gate: &G,
) -> Status
    // An answer is one that the definition gives, which gives at most one, and all of it was written and said.
    ensures answer { is_answered result ≡ true → IsOutcome (texts words.entry.now) result (H.told host.old) (H.told host.new) }
    // Masks that were written part the layer, keep its features apart, overlap at stitches alone and have each marked square on its mask alone; only `split`, for each layer by itself `batch`, and for the edited layer `edit` write; and where `check` is done, so do the masks that it read, or the cycle that it read is an odd cycle of conflicts.
    ensures parted { is_answered result ≡ true → IsParted (texts words.entry.now) result (H.told host.old) (H.told host.new) }
    // The words decide alone whether they are a command.
    ensures usage { result ≡ Status.Usage → request_of (texts words.entry.now) ≡ None }
    ensures no_other { request_of (texts words.entry.now) ≡ None → (result ≡ Status.Usage) ⊎ (result ≡ Status.WriteFault) ⊎ (result ≡ Status.NoMemory) }
    // A read failed, or another call; or, at any other answer, out of memory too, none.
    ensures faults { TellsFaults result (H.read_faults host.old) (H.read_faults host.new) (H.write_faults host.old) (H.write_faults host.new) }
    // What these leave.
    ensures unread { result ≡ Status.ReadFault → H.told host.new ≡ H.told host.old }
    ensures memory { result ≡ Status.NoMemory → H.told host.new ≡ H.told host.old }
    ensures cut { result ≡ Status.WriteFault → IsCutShort (texts words.entry.now) (H.told host.old) (H.told host.new) }
    // Where no call of the host failed, there is no other answer, but out of memory.
    ensures complete { IsStill (H.read_faults host.old) (H.read_faults host.new) → IsStill (H.write_faults host.old) (H.write_faults host.new)
        → (result ≡ Status.NoMemory) ⊎ IsOutcome (texts words.entry.now) result (H.told host.old) (H.told host.new) }
    // It calls its host for just what the answer needs, and for no write before all is made. No body can know whether its host keeps its calls, so this binds it over each.
    ensures calls { Logged (H.log host.old) (H.log host.new) (AreCallsOf (texts words.entry.now) (H.told host.old) result) }
{
    match made(rt, alloc, words, host, gate) {
        Ok(output) => match perform(host, &output) {
            Ok(()) => output.status,
            Err(_) => Status::WriteFault,
        },
        Err(status) => status,
    }
}

/// Makes all that the words ask for, before anything is written; else says how the run ends.
fn made<'a, R: Threads + Wait + Sync, H: Host, G: Gate + Sync>(
    rt: &R,
    alloc: Global,
    words: &'a [&'a str],
    host: &mut H,
    gate: &G,
) -> Result<Output<'a>, Status>
    ensures made { IfOk result (λ x. IsMade (request_of (texts words.entry.now)) (H.told host.old) (output_view x)) }
    ensures only { IfErr result (λ s. (s ≡ Status.ReadFault) ⊎ (s ≡ Status.NoMemory)) }
    ensures faults { IfErr result (λ s. TellsFaults s (H.read_faults host.old) (H.read_faults host.new) (H.write_faults host.old) (H.write_faults host.new)) }
    ensures worked { OnOk result (H.read_faults host.new ≡ H.read_faults host.old) }
    ensures asked { IsErrOf result Status.ReadFault → is_some (request_of (texts words.entry.now)) ≡ true }
    ensures same { H.told host.new ≡ H.told host.old }
    ensures later { H.read_faults host.old ≤ H.read_faults host.new }
    ensures others { H.write_faults host.new ≡ H.write_faults host.old }
    ensures calls { Logged (H.log host.old) (H.log host.new) (AreReadsFor (request_of (texts words.entry.now)) (H.told host.old)) }
{
    match read_words(alloc, words) {
        Ok(request) => match output_of(rt, alloc, &request, host, gate) {
            Ok(output) => Ok(output),
            Err(ReadFault::Failed) => Err(Status::ReadFault),
            Err(_) => Err(Status::NoMemory),
        },
        Err(WordsFault::Usage) => match usage(alloc) {
            Ok(output) => Ok(output),
            Err(_) => Err(Status::NoMemory),
        },
        Err(WordsFault::NoMemory) => Err(Status::NoMemory),
    }
}

/// Makes what a request asks for.
fn output_of<'a, R: Threads + Wait + Sync, H: Host, G: Gate + Sync>(
    rt: &R,
    alloc: Global,
    request: &Request<'a>,
    host: &mut H,
    gate: &G,
) -> Result<Output<'a>, ReadFault>
    requires ranges { IsInRange (request_view request.now) }
    requires apart { IsApart (request_view request.now) }
    ensures made { IfOk result (λ x. IsMade (Some (request_view request.now)) (H.told host.old) (output_view x)) }
    ensures cause { HasReadCause (H.read_faults host.old) (H.read_faults host.new) result }
    ensures not_large { IsErrOf result ReadFault.TooLarge → ⊥ }
    ensures same { H.told host.new ≡ H.told host.old }
    ensures others { H.write_faults host.new ≡ H.write_faults host.old }
    ensures calls { Logged (H.log host.old) (H.log host.new) (AreReadsFor (Some (request_view request.now)) (H.told host.old)) }
{
    match request {
        Request::Split(options) => split_output(rt, alloc, options, host, gate),
        Request::Check(options) => check_output(alloc, options, host),
        Request::Demo(options) => read_nothing(host, demo_output(rt, alloc, options, gate)?),
        Request::Batch(options) => batch_output(rt, alloc, options, host, gate),
        Request::Edit(options) => edit_output(rt, alloc, options, host, gate),
    }
}

/// How the command line is written.
fn usage<'a>(alloc: Global) -> Result<Output<'a>, AllocError>
    ensures { IfOk result (λ x. output_view x ≡ says Status.Usage usage_line_of) }
{
    let line = usage_line(alloc)?;
    Ok(said(alloc, Status::Usage, line))
}
