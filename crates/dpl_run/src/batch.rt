//! What `batch` makes of a file, before anything is written.
ghost use Rattle.std.specs.Prelude.{◌≡◌, ◌≤◌, All, IfOk, IsErrOf, OnOk, Some, length};
ghost use Rattle.dpl_host.specs.Calls.{AreReadsOf, Logged};
ghost use Rattle.dpl_host.specs.Whole.{HasReadCause};
ghost use Rattle.dpl_words.specs.Meaning.{AsksBatch, batch_view};
ghost use Rattle.dpl_words.specs.Ranges.{AreInRangeForBatch};
ghost use Rattle.dpl_layer.specs.Reading.{limit};
ghost use Rattle.dpl_run.specs.Batch.{IsBatch, greater as greater_of, split_of};
ghost use Rattle.dpl_run.specs.BatchMade.{AreDecidedFor, IsAdded, decided_together};
ghost use Rattle.dpl_run.specs.Program.{IsMade};
ghost use Rattle.dpl_run.specs.Split.{plan_of};
ghost use Rattle.dpl_decide.specs.View.{FitsDecision, decision_view};
ghost use Rattle.dpl_run.specs.View.{output_view};

use crate::input::read_input;
use crate::output::{FileName, Output, Write};
use crate::split::decided;
use crate::status::Status;
use dpl_answer::Sharing;
use dpl_base::Spacing;
use dpl_cert::Name;
use dpl_decide::{Decision, LayersOrder, decide_all};
use dpl_host::{Host, MAX_BYTES, ReadFault};
use dpl_pool::Gate;
use dpl_texts::layer_line;
use dpl_words::{BatchOptions, SplitOptions, certificate_name, mask_name};
use std::alloc::{AllocError, Global};
use std::sync::Wait;
use std::thread::Threads;

/// Reads IN, and makes for each layer what `split` makes of it.
pub(crate) fn batch_output<'a, R: Threads + Wait + Sync, H: Host, G: Gate + Sync>(
    rt: &R,
    alloc: Global,
    options: &BatchOptions<'a>,
    host: &mut H,
    gate: &G,
) -> Result<Output<'a>, ReadFault>
    requires { AreInRangeForBatch (batch_view options.now) }
    ensures made { IfOk result (λ x. IsMade (Some (AsksBatch (batch_view options.now))) (H.told host.old) (output_view x)) }
    ensures cause { HasReadCause (H.read_faults host.old) (H.read_faults host.new) result }
    ensures not_large { IsErrOf result ReadFault.TooLarge → ⊥ }
    ensures same { H.told host.new ≡ H.told host.old }
    ensures others { H.write_faults host.new ≡ H.write_faults host.old }
    ensures calls { Logged (H.log host.old) (H.log host.new) (AreReadsOf (batch_view options.now).input) }
{
    match read_input(alloc, host, options.input) {
        Ok(Some(bytes)) => Ok(batch(rt, alloc, options, bytes, gate)?),
        Ok(None) => {
            let decisions = all_refused(alloc, &options.layers, Name::TooLarge, MAX_BYTES as u64)?;
            Ok(all_decided(rt, alloc, options, decisions)?)
        }
        Err(fault) => Err(fault),
    }
}

/// Decides each layer of the bytes of IN, and makes the files that tell of them.
fn batch<'a, R: Threads + Wait + Sync, G: Gate + Sync>(
    rt: &R,
    alloc: Global,
    options: &BatchOptions<'a>,
    bytes: Vec<u8>,
    gate: &G,
) -> Result<Output<'a>, AllocError>
    requires size { length bytes.items ≤ limit }
    requires ranges { AreInRangeForBatch (batch_view options.now) }
    ensures { IfOk result (λ x. IsBatch (batch_view options.now) bytes.items (output_view x)) }
{
    let order = LayersOrder {
        top: options.top,
        datatype: options.datatype,
        layers: &options.layers,
        spacing: Spacing {
            rule: options.rule,
            corner: options.corner,
        },
        overlap: options.overlap,
        sharing: Sharing {
            tile: options.tile,
            workers: options.workers,
        },
    };
    let decisions = decide_all(rt, alloc, &order, bytes, gate)?;
    all_decided(rt, alloc, options, decisions)
}

/// One fault for each layer.
fn all_refused(
    alloc: Global,
    layers: &[u16],
    name: Name,
    at: u64,
) -> Result<Vec<Decision>, AllocError>
    ensures { IfOk result (λ ds. AreDecidedFor name at layers.now ds.items) }
{
    let mut decisions = Vec::new(alloc);
    for _layer in layers {
        decisions.push(Decision::Refused { name, at })?;
    }
    Ok(decisions)
}

/// The files and the lines that tell of the decisions, one for each layer.
fn all_decided<'a, R: Threads + Sync>(
    rt: &R,
    alloc: Global,
    options: &BatchOptions<'a>,
    decisions: Vec<Decision>,
) -> Result<Output<'a>, AllocError>
    requires fits { All FitsDecision decisions.items }
    requires len { length decisions.items ≡ length (batch_view options.now).layers }
    ensures { IfOk result (λ x. output_view x ≡ decided_together (batch_view options.now) (batch_view options.now).layers decisions.items) }
{
    let mut all = Output {
        status: Status::Done,
        writes: Vec::new(alloc),
        line: String::new(alloc),
    };
    let mut at = 0;
    for decision in decisions {
        let layer = options.layers[at];
        let one = layer_output(rt, alloc, options, layer, decision)?;
        add(alloc, &mut all, layer, one)?;
        at += 1;
    }
    Ok(all)
}

/// The files and the line that tell of the decision of a layer: those of `split`.
fn layer_output<'a, R: Threads + Sync>(
    rt: &R,
    alloc: Global,
    options: &BatchOptions<'a>,
    layer: u16,
    decision: Decision,
) -> Result<Output<'a>, AllocError>
    requires { FitsDecision decision }
    ensures { IfOk result (λ x. output_view x ≡ plan_of (split_of (batch_view options.now) layer) (decision_view decision)) }
{
    let masks = mask_name(alloc, options.prefix, layer)?;
    let certificate = certificate_name(alloc, options.prefix, layer)?;
    let one = SplitOptions {
        layer,
        datatype: options.datatype,
        rule: options.rule,
        overlap: options.overlap,
        corner: options.corner,
        top: options.top,
        a: options.a,
        b: options.b,
        mark_a: None,
        mark_b: None,
        tile: options.tile,
        workers: options.workers,
        fewer: false,
        input: options.input,
        output: masks.as_str(),
        certificate: certificate.as_str(),
    };
    let made = decided(rt, alloc, &one, decision)?;
    owned(alloc, made)
}

/// What was made, with names of its own.
fn owned<'a>(alloc: Global, made: Output<'_>) -> Result<Output<'a>, AllocError>
    ensures { IfOk result (λ x. output_view x ≡ output_view made.entry) }
{
    let Output {
        status,
        writes,
        line,
    } = made;
    let mut own = Vec::new(alloc);
    for write in writes {
        let name = String::from_str(alloc, write.name.text())?;
        own.push(Write {
            name: FileName::Made(name),
            bytes: write.bytes,
        })?;
    }
    Ok(Output {
        status,
        writes: own,
        line,
    })
}

/// Adds what was made of a layer: its files and its line stand behind the others, and the greater code stays.
fn add<'a>(
    alloc: Global,
    all: &mut Output<'a>,
    layer: u16,
    one: Output<'a>,
) -> Result<(), AllocError>
    ensures { OnOk result (IsAdded layer (output_view one.entry) (output_view all.old) (output_view all.new)) }
{
    let Output {
        status,
        mut writes,
        line,
    } = one;
    let line = layer_line(alloc, layer, line.as_str())?;
    all.status = greater(all.status, status);
    all.writes.append(&mut writes)?;
    all.line.push_str(line.as_str())
}

/// The answer with the greater code.
fn greater(first: Status, second: Status) -> Status
    ensures { result ≡ greater_of first second }
{
    if first.code() < second.code() {
        second
    } else {
        first
    }
}
