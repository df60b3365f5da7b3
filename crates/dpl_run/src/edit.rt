//! What `edit` makes of a layout and a text of edits, before anything is written.
ghost use Rattle.std.specs.Prelude.{◌≡◌, ◌≤◌, All, IfOk, IsErrOf, Some};
ghost use Rattle.dpl_host.specs.Calls.{AreReadsOf, Logged};
ghost use Rattle.dpl_host.specs.Whole.{HasReadCause};
ghost use Rattle.dpl_words.specs.Meaning.{AsksEdit, edit_view, split_view};
ghost use Rattle.dpl_words.specs.Ranges.{AreInRangeForEdit, IsApart};
ghost use Rattle.dpl_spec_edits.specs.Text.{IsEdit};
ghost use Rattle.dpl_run.specs.Calls.{AreReadsOfEdit};
ghost use Rattle.dpl_run.specs.Edit.{IsEditedBy, split_by as split_by_of};
ghost use Rattle.dpl_run.specs.Program.{IsMade, IsMadeOfEdits};
ghost use Rattle.dpl_run.specs.View.{output_view};

use crate::input::read_input;
use crate::output::Output;
use crate::refusals::{bad_line, too_large};
use crate::split::{decided, fault_output, order_of};
use dpl_cert::Name;
use dpl_decide::{Decision, decompose};
use dpl_edits::{Edit, EditsFault, edited, read_edits};
use dpl_host::{Host, MAX_BYTES, ReadFault};
use dpl_layer::{Layer, LayerFault, layer_of};
use dpl_pool::Gate;
use dpl_texts::NamedFile;
use dpl_words::{EditOptions, SplitOptions};
use std::alloc::{AllocError, Global};
use std::sync::Wait;
use std::thread::Threads;

/// Reads IN, and then EDITS where IN has the layer, and makes of the edited layer what `split` makes of a layer.
#[tactic(auto, using(crate::proofs::Edits::layout_only))]
pub(crate) fn edit_output<'a, R: Threads + Wait + Sync, H: Host, G: Gate + Sync>(
    rt: &R,
    alloc: Global,
    options: &EditOptions<'a>,
    host: &mut H,
    gate: &G,
) -> Result<Output<'a>, ReadFault>
    requires ranges { AreInRangeForEdit (edit_view options.now) }
    requires apart { IsApart (AsksEdit (edit_view options.now)) }
    ensures made { IfOk result (λ x. IsMade (Some (AsksEdit (edit_view options.now))) (H.told host.old) (output_view x)) }
    ensures cause { HasReadCause (H.read_faults host.old) (H.read_faults host.new) result }
    ensures not_large { IsErrOf result ReadFault.TooLarge → ⊥ }
    ensures same { H.told host.new ≡ H.told host.old }
    ensures others { H.write_faults host.new ≡ H.write_faults host.old }
    ensures calls { Logged (H.log host.old) (H.log host.new) (AreReadsOfEdit (edit_view options.now) (H.told host.old)) }
{
    let split = split_by(options);
    let order = order_of(&split);
    let Some(bytes) = read_input(alloc, host, options.input)? else {
        return Ok(fault_output(alloc, &split, Name::TooLarge, MAX_BYTES as u64)?);
    };
    match layer_of(alloc, &order.choice.layer, bytes) {
        Ok(layer) => edit_layer(rt, alloc, options, layer, host, gate),
        Err(LayerFault::Refused { name, at }) => Ok(fault_output(alloc, &split, name, at)?),
        Err(LayerFault::NoMemory) => Err(ReadFault::NoMemory),
    }
}

/// Reads EDITS, and makes them on a layer.
fn edit_layer<'a, R: Threads + Wait + Sync, H: Host, G: Gate + Sync>(
    rt: &R,
    alloc: Global,
    options: &EditOptions<'a>,
    layer: Layer,
    host: &mut H,
    gate: &G,
) -> Result<Output<'a>, ReadFault>
    requires { AreInRangeForEdit (edit_view options.now) }
    ensures made { IfOk result (λ x. IsMadeOfEdits (H.told host.old) (edit_view options.now) layer.copied.items layer.slabs (output_view x)) }
    ensures cause { HasReadCause (H.read_faults host.old) (H.read_faults host.new) result }
    ensures not_large { IsErrOf result ReadFault.TooLarge → ⊥ }
    ensures same { H.told host.new ≡ H.told host.old }
    ensures others { H.write_faults host.new ≡ H.write_faults host.old }
    ensures calls { Logged (H.log host.old) (H.log host.new) (AreReadsOf (edit_view options.now).edits) }
{
    let Some(text) = read_input(alloc, host, options.edits)? else {
        return Ok(too_large(alloc, NamedFile::Edits)?);
    };
    match read_edits(alloc, text.as_slice()) {
        Ok(edits) => {
            drop(text);
            Ok(edit_by(rt, alloc, options, layer, edits, gate)?)
        }
        Err(EditsFault::BadLine { line }) => Ok(bad_line(alloc, NamedFile::Edits, line)?),
        Err(EditsFault::NoMemory) => Err(ReadFault::NoMemory),
    }
}

/// Makes the edits on a layer, decomposes what they make of it, and makes the files that tell of that.
fn edit_by<'a, R: Threads + Wait + Sync, G: Gate + Sync>(
    rt: &R,
    alloc: Global,
    options: &EditOptions<'a>,
    layer: Layer,
    edits: Vec<Edit>,
    gate: &G,
) -> Result<Output<'a>, AllocError>
    requires ranges { AreInRangeForEdit (edit_view options.now) }
    requires edits { All IsEdit edits.items }
    ensures { IfOk result (λ x. IsEditedBy (edit_view options.now) layer.copied.items layer.slabs edits.items (output_view x)) }
{
    let Layer { copied, slabs } = layer;
    let after = edited(alloc, slabs, edits.as_slice())?;
    drop(edits);
    let split = split_by(options);
    let order = order_of(&split);
    let answer = decompose(rt, alloc, &order.recipe, after, None, gate)?;
    decided(rt, alloc, &split, Decision::Answered { copied, answer })
}

/// The command line of `split` whose answer it is, for the edited layer: no markers, and one worker, who makes no tiles.
fn split_by<'a>(options: &EditOptions<'a>) -> SplitOptions<'a>
    ensures { split_view result ≡ split_by_of (edit_view options.now) }
{
    SplitOptions {
        layer: options.layer,
        datatype: options.datatype,
        rule: options.rule,
        overlap: options.overlap,
        corner: options.corner,
        top: options.top,
        a: options.a,
        b: options.b,
        mark_a: None,
        mark_b: None,
        tile: options.tile,
        workers: 1,
        fewer: false,
        input: options.input,
        output: options.output,
        certificate: options.certificate,
    }
}
