//! What `split` makes of a file, before anything is written.
ghost use Rattle.std.specs.Prelude.{◌≡◌, ◌≤◌, IfOk, IsErrOf, Some, length};
ghost use Rattle.dpl_host.specs.Calls.{AreReadsOf, Logged};
ghost use Rattle.dpl_host.specs.Whole.{HasReadCause};
ghost use Rattle.dpl_words.specs.Meaning.{AsksSplit, split_view};
ghost use Rattle.dpl_words.specs.Ranges.{AreInRange};
ghost use Rattle.dpl_cert.specs.Grammar.{IsCert};
ghost use Rattle.dpl_masks.specs.Bytes.{file_bytes as file_bytes_of};
ghost use Rattle.dpl_layer.specs.Reading.{limit};
ghost use Rattle.dpl_layer.specs.View.{marked_choice_view};
ghost use Rattle.dpl_answer.specs.Flat.{FitsClash, FitsPainted};
ghost use Rattle.dpl_run.specs.Split.{IsSplit, certified, clash as clash_of, painting, plan_of, refusal, split_marked, split_spacing};
ghost use Rattle.dpl_run.specs.Program.{IsMade};
ghost use Rattle.dpl_answer.specs.View.{clash_view, painted_view};
ghost use Rattle.dpl_decide.specs.View.{FitsDecision, decision_view};
ghost use Rattle.dpl_run.specs.View.{output_view, write_view};

use crate::input::read_input;
use crate::output::{FileName, Output, Write};
use crate::status::Status;
use dpl_answer::{Clash, Decomposed, Painted, Sharing};
use dpl_base::Spacing;
use dpl_cert::{Cert, Name, cert_bytes, cert_bytes_by};
use dpl_decide::{Decision, Order, Recipe, decide};
use dpl_host::{Host, MAX_BYTES, ReadFault};
use dpl_layer::{LayerChoice, MarkedChoice};
use dpl_masks::{Masks, file_bytes};
use dpl_pool::Gate;
use dpl_texts::{conflict_line, done_line, refused_line};
use dpl_words::SplitOptions;
use std::alloc::{AllocError, Global};
use std::sync::Wait;
use std::thread::{Threads, join};

/// Reads IN, and makes the masks and their certificate, or the certificate of a conflict or a fault.
pub(crate) fn split_output<'a, R: Threads + Wait + Sync, H: Host, G: Gate + Sync>(
    rt: &R,
    alloc: Global,
    options: &SplitOptions<'a>,
    host: &mut H,
    gate: &G,
) -> Result<Output<'a>, ReadFault>
    requires { AreInRange (split_view options.now) }
    ensures made { IfOk result (λ x. IsMade (Some (AsksSplit (split_view options.now))) (H.told host.old) (output_view x)) }
    ensures cause { HasReadCause (H.read_faults host.old) (H.read_faults host.new) result }
    ensures not_large { IsErrOf result ReadFault.TooLarge → ⊥ }
    ensures same { H.told host.new ≡ H.told host.old }
    ensures others { H.write_faults host.new ≡ H.write_faults host.old }
    ensures calls { Logged (H.log host.old) (H.log host.new) (AreReadsOf (split_view options.now).input) }
{
    match read_input(alloc, host, options.input) {
        Ok(Some(bytes)) => Ok(split(rt, alloc, options, bytes, gate)?),
        Ok(None) => Ok(fault_output(alloc, options, Name::TooLarge, MAX_BYTES as u64)?),
        Err(fault) => Err(fault),
    }
}

/// Decides the bytes of IN, and makes the files that tell of it.
fn split<'a, R: Threads + Wait + Sync, G: Gate + Sync>(
    rt: &R,
    alloc: Global,
    options: &SplitOptions<'a>,
    bytes: Vec<u8>,
    gate: &G,
) -> Result<Output<'a>, AllocError>
    requires size { length bytes.items ≤ limit }
    requires ranges { AreInRange (split_view options.now) }
    ensures { IfOk result (λ x. IsSplit (split_view options.now) bytes.items (output_view x)) }
{
    let decision = decide(rt, alloc, &order_of(options), bytes, gate)?;
    decided(rt, alloc, options, decision)
}

/// What a command line of `split` asks of a layout.
pub(crate) fn order_of<'a>(options: &SplitOptions<'a>) -> Order<'a>
    ensures choice { marked_choice_view result.choice ≡ split_marked (split_view options.now) }
    ensures spacing { result.recipe.spacing ≡ split_spacing (split_view options.now) }
    ensures overlap { result.recipe.overlap ≡ (split_view options.now).overlap }
    ensures fewer { result.recipe.fewer ≡ (split_view options.now).fewer }
    ensures tile { result.recipe.sharing.tile ≡ (split_view options.now).tile }
    ensures workers { result.recipe.sharing.workers ≡ (split_view options.now).workers }
{
    Order {
        choice: MarkedChoice {
            layer: LayerChoice {
                top: options.top,
                layer: options.layer,
                datatype: options.datatype,
            },
            mark_a: options.mark_a,
            mark_b: options.mark_b,
        },
        recipe: Recipe {
            spacing: Spacing {
                rule: options.rule,
                corner: options.corner,
            },
            overlap: options.overlap,
            fewer: options.fewer,
            sharing: Sharing {
                tile: options.tile,
                workers: options.workers,
            },
        },
    }
}

/// The files and the line that tell of a decision. With two workers or more the bytes of both files are made side by side.
pub(crate) fn decided<'a, R: Threads + Sync>(
    rt: &R,
    alloc: Global,
    options: &SplitOptions<'a>,
    decision: Decision,
) -> Result<Output<'a>, AllocError>
    requires { FitsDecision decision }
    ensures { IfOk result (λ x. output_view x ≡ plan_of (split_view options.now) (decision_view decision)) }
{
    match decision {
        Decision::Refused { name, at } => fault_output(alloc, options, name, at),
        Decision::Answered { copied, answer } => match answer {
            Decomposed::Masks(painted) => {
                painted_output(rt, alloc, options, copied.as_slice(), painted)
            }
            Decomposed::Cycle(clash) => clash_output(alloc, options, clash),
        },
    }
}

/// Both masks are written, then their certificate.
fn painted_output<'a, R: Threads + Sync>(
    rt: &R,
    alloc: Global,
    options: &SplitOptions<'a>,
    copied: &[u8],
    painted: Painted,
) -> Result<Output<'a>, AllocError>
    requires { FitsPainted (painted_view painted) }
    ensures { IfOk result (λ x. output_view x ≡ painting (split_view options.now) copied.now (painted_view painted)) }
{
    let Painted {
        a,
        b,
        head,
        pieces,
        stitches,
        gains,
    } = painted;
    let line = done_line(
        alloc,
        &head,
        stitches.items().len(),
        a.rects().len(),
        b.rects().len(),
    )?;
    let cert = Cert::Masks {
        head,
        pieces,
        stitches,
        gains,
    };
    let masks = Masks { a, b };
    let (bytes, text) = painted_bytes(rt, alloc, options, copied, masks, cert)?;
    let masks = Write {
        name: FileName::Given(options.output),
        bytes,
    };
    let certificate = Write {
        name: FileName::Given(options.certificate),
        bytes: text,
    };
    let writes = vec![in alloc; masks, certificate]?;
    Ok(Output {
        status: Status::Done,
        writes,
        line,
    })
}

/// The bytes of both masks and those of their certificate. With two workers or more one makes those of the masks, and all others those of the certificate.
fn painted_bytes<R: Threads + Sync>(
    rt: &R,
    alloc: Global,
    options: &SplitOptions,
    copied: &[u8],
    masks: Masks,
    cert: Cert,
) -> Result<(Vec<u8>, Vec<u8>), AllocError>
    requires { IsCert cert }
    ensures masks { IfOk result (λ x. x.0.items ≡ file_bytes_of copied.now options.now.a options.now.b masks.a masks.b) }
    ensures certificate { IfOk result (λ x. x.1.items ≡ certified cert) }
{
    if options.workers < 2 {
        return bytes_in_turn(alloc, options, copied, masks, &cert);
    }
    let others = options.workers - 1;
    bytes_at_once(rt, alloc, options, copied, &masks, &cert, others)
}

/// The bytes of both masks, which are let go then, and those of their certificate.
fn bytes_in_turn(
    alloc: Global,
    options: &SplitOptions,
    copied: &[u8],
    masks: Masks,
    cert: &Cert,
) -> Result<(Vec<u8>, Vec<u8>), AllocError>
    requires { IsCert cert.now }
    ensures masks { IfOk result (λ x. x.0.items ≡ file_bytes_of copied.now options.now.a options.now.b masks.a masks.b) }
    ensures certificate { IfOk result (λ x. x.1.items ≡ certified cert.now) }
{
    let la = options.a;
    let lb = options.b;
    let bytes = file_bytes(alloc, copied, masks.a.rects(), masks.b.rects(), la, lb)?;
    drop(masks);
    Ok((bytes, cert_bytes(alloc, cert)?))
}

/// The bytes of both masks by one worker, and those of their certificate by so many others.
fn bytes_at_once<R: Threads + Sync>(
    rt: &R,
    alloc: Global,
    options: &SplitOptions,
    copied: &[u8],
    masks: &Masks,
    cert: &Cert,
    others: u32,
) -> Result<(Vec<u8>, Vec<u8>), AllocError>
    requires { IsCert cert.now }
    ensures masks { IfOk result (λ x. x.0.items ≡ file_bytes_of copied.now options.now.a options.now.b masks.now.a masks.now.b) }
    ensures certificate { IfOk result (λ x. x.1.items ≡ certified cert.now) }
{
    let la = options.a;
    let lb = options.b;
    let (bytes, text) = join(
        rt,
        || -> Result<Vec<u8>, AllocError>
            ensures { IfOk result (λ v. v.items ≡ file_bytes_of copied.entry.now la lb masks.entry.now.a masks.entry.now.b) }
        { file_bytes(alloc, copied, masks.a.rects(), masks.b.rects(), la, lb) },
        || -> Result<Vec<u8>, AllocError>
            requires { IsCert cert.now }
            ensures { IfOk result (λ v. v.items ≡ certified cert.entry.now) }
        { cert_bytes_by(rt, alloc, cert, others) },
    );
    Ok((bytes?, text?))
}

/// The certificate of a cycle is written.
fn clash_output<'a>(
    alloc: Global,
    options: &SplitOptions<'a>,
    clash: Clash,
) -> Result<Output<'a>, AllocError>
    requires { FitsClash (clash_view clash) }
    ensures { IfOk result (λ x. output_view x ≡ clash_of (split_view options.now) (clash_view clash)) }
{
    let Clash { head, cycle, near } = clash;
    let line = conflict_line(alloc, cycle.items().len())?;
    let cert = Cert::Conflict { head, cycle, near };
    let certificate = certificate(alloc, options, &cert)?;
    let writes = vec![in alloc; certificate]?;
    Ok(Output {
        status: Status::Conflict,
        writes,
        line,
    })
}

/// The certificate of a fault is written.
pub(crate) fn fault_output<'a>(
    alloc: Global,
    options: &SplitOptions<'a>,
    name: Name,
    at: u64,
) -> Result<Output<'a>, AllocError>
    ensures { IfOk result (λ x. output_view x ≡ refusal (split_view options.now) name at) }
{
    let line = refused_line(alloc, name, at)?;
    let certificate = certificate(alloc, options, &Cert::Fault { name, at })?;
    let writes = vec![in alloc; certificate]?;
    Ok(Output {
        status: Status::Refused,
        writes,
        line,
    })
}

/// A certificate as a file.
fn certificate<'a>(
    alloc: Global,
    options: &SplitOptions<'a>,
    cert: &Cert,
) -> Result<Write<'a>, AllocError>
    requires { IsCert cert.now }
    ensures { IfOk result (λ w. write_view w ≡ (options.now.certificate.now, certified cert.now)) }
{
    let bytes = cert_bytes(alloc, cert)?;
    Ok(Write {
        name: FileName::Given(options.certificate),
        bytes,
    })
}
