//! What `check` makes of three files.
ghost use Rattle.std.specs.Prelude.{◌≡◌, ◌≤◌, ℕ, IfOk, IsErrOf, List, MatchBool, Option, Some, length};
ghost use Rattle.dpl_spec_split.specs.Marks.{AreMarks};
ghost use Rattle.dpl_host.specs.Calls.{AreReadsOf, Logged};
ghost use Rattle.dpl_host.specs.Whole.{HasReadCause};
ghost use Rattle.dpl_words.specs.Meaning.{AsksCheck, check_view};
ghost use Rattle.dpl_words.specs.Ranges.{AreInRangeForCheck, IsApart};
ghost use Rattle.dpl_cert.specs.Grammar.{IsCert};
ghost use Rattle.dpl_spec_verdict.specs.Masks.{IsOfMasks};
ghost use Rattle.dpl_run.specs.Calls.{AreReadsOfCert, AreReadsOfCheck};
ghost use Rattle.dpl_run.specs.CallsMade.{AreReadsBehind};
ghost use Rattle.dpl_run.specs.Check.{IsCheckOfCert, IsCheckOfMasks, check_marked, check_spacing, mask_choice as mask_choice_of, verdict_outcome, verdict_status};
ghost use Rattle.dpl_run.specs.Program.{IsMade, IsMadeOfCert, IsMadeOfLayer};
ghost use Rattle.dpl_layer.specs.Reading.{limit};
ghost use Rattle.dpl_layer.specs.View.{choice_view, marked_choice_view};
ghost use Rattle.dpl_run.specs.View.{marks_with, output_view};

use crate::input::read_input;
use crate::output::{Output, said};
use crate::refusals::{bad_line, refused, too_large};
use crate::status::Status;
use dpl_base::Spacing;
use dpl_cert::Cert;
use dpl_check::{Verdict, check_conflict, check_masks};
use dpl_decide::has_markers;
use dpl_host::{Host, ReadFault};
use dpl_layer::{
    LayerChoice, LayerFault, MarkedChoice, MarkedLayer, layer_of, layer_within, marked_layer_of,
};
use dpl_parse::{CertFault, read_cert};
use dpl_texts::{NamedFile, verdict_line};
use dpl_words::CheckOptions;
use std::alloc::{AllocError, Global};

/// Reads IN, then what is needed of CERT and OUT, and says the first broken property, or that none is.
#[tactic(auto, using(crate::proofs::Calls::layout_only))]
pub(crate) fn check_output<'a, H: Host>(
    alloc: Global,
    options: &CheckOptions<'_>,
    host: &mut H,
) -> Result<Output<'a>, ReadFault>
    requires ranges { AreInRangeForCheck (check_view options.now) }
    requires apart { IsApart (AsksCheck (check_view options.now)) }
    ensures made { IfOk result (λ x. IsMade (Some (AsksCheck (check_view options.now))) (H.told host.old) (output_view x)) }
    ensures cause { HasReadCause (H.read_faults host.old) (H.read_faults host.new) result }
    ensures not_large { IsErrOf result ReadFault.TooLarge → ⊥ }
    ensures same { H.told host.new ≡ H.told host.old }
    ensures others { H.write_faults host.new ≡ H.write_faults host.old }
    ensures calls { Logged (H.log host.old) (H.log host.new) (AreReadsOfCheck (check_view options.now) (H.told host.old)) }
{
    let Some(bytes) = read_input(alloc, host, options.input)? else {
        return Ok(too_large(alloc, NamedFile::Layout)?);
    };
    match marked_layer_of(alloc, &choice_of(options), bytes) {
        Ok(layer) => check_layer(alloc, options, &layer, host),
        Err(LayerFault::Refused { name, at }) => Ok(refused(alloc, NamedFile::Layout, name, at)?),
        Err(LayerFault::NoMemory) => Err(ReadFault::NoMemory),
    }
}

/// Reads CERT, and goes on by its kind.
#[tactic(auto, using(crate::proofs::Calls::cert_only))]
fn check_layer<'a, H: Host>(
    alloc: Global,
    options: &CheckOptions<'_>,
    layer: &MarkedLayer,
    host: &mut H,
) -> Result<Output<'a>, ReadFault>
    requires ranges { AreInRangeForCheck (check_view options.now) }
    requires marks { AreMarks layer.now.mark_a layer.now.mark_b (marks_with (check_view options.now) layer.now) }
    ensures made { IfOk result (λ x. IsMadeOfLayer (H.told host.old) (check_view options.now) (marks_with (check_view options.now) layer.now) layer.now.slabs (output_view x)) }
    ensures cause { HasReadCause (H.read_faults host.old) (H.read_faults host.new) result }
    ensures not_large { IsErrOf result ReadFault.TooLarge → ⊥ }
    ensures same { H.told host.new ≡ H.told host.old }
    ensures others { H.write_faults host.new ≡ H.write_faults host.old }
    ensures calls { Logged (H.log host.old) (H.log host.new) (AreReadsOfCert (check_view options.now) (H.told host.old)) }
{
    let Some(text) = read_input(alloc, host, options.certificate)? else {
        return Ok(too_large(alloc, NamedFile::Certificate)?);
    };
    match read_cert(alloc, text.as_slice()) {
        Ok(cert) => {
            drop(text);
            check_cert(alloc, options, layer, &cert, host)
        }
        Err(CertFault::BadLine { line }) => Ok(bad_line(alloc, NamedFile::Certificate, line)?),
        Err(CertFault::NoMemory) => Err(ReadFault::NoMemory),
    }
}

/// Judges masks with OUT, and a conflict or a fault by its certificate alone.
fn check_cert<'a, H: Host>(
    alloc: Global,
    options: &CheckOptions<'_>,
    layer: &MarkedLayer,
    cert: &Cert,
    host: &mut H,
) -> Result<Output<'a>, ReadFault>
    requires ranges { AreInRangeForCheck (check_view options.now) }
    requires marks { AreMarks layer.now.mark_a layer.now.mark_b (marks_with (check_view options.now) layer.now) }
    requires cert { IsCert cert.now }
    ensures made { IfOk result (λ x. IsMadeOfCert (H.told host.old) (check_view options.now) (marks_with (check_view options.now) layer.now) layer.now.slabs cert.now (output_view x)) }
    ensures cause { HasReadCause (H.read_faults host.old) (H.read_faults host.new) result }
    ensures not_large { IsErrOf result ReadFault.TooLarge → ⊥ }
    ensures same { H.told host.new ≡ H.told host.old }
    ensures others { H.write_faults host.new ≡ H.write_faults host.old }
    ensures calls { Logged (H.log host.old) (H.log host.new) (AreReadsBehind (check_view options.now) cert.now) }
{
    if needs_masks(cert) {
        return check_out(alloc, options, layer, cert, host);
    }
    Ok(check_alone(alloc, options, layer, cert)?)
}

/// Whether OUT is read to judge a certificate.
fn needs_masks(cert: &Cert) -> bool
    ensures { MatchBool result (IsOfMasks cert.now) (IsOfMasks cert.now → ⊥) }
{
    match cert {
        Cert::Masks { .. } => true,
        Cert::Conflict { .. } => false,
        Cert::Fault { .. } => false,
    }
}

/// Judges a conflict or a fault by its certificate alone.
fn check_alone<'a>(
    alloc: Global,
    options: &CheckOptions<'_>,
    layer: &MarkedLayer,
    cert: &Cert,
) -> Result<Output<'a>, AllocError>
    requires ranges { AreInRangeForCheck (check_view options.now) }
    requires cert { IsCert cert.now }
    requires kind { IsOfMasks cert.now → ⊥ }
    // Whatever OUT may be.
    ensures { IfOk result (λ x. (out : Option (List ℕ)) → IsCheckOfCert (check_view options.now) (marks_with (check_view options.now) layer.now) layer.now.slabs out cert.now (output_view x)) }
{
    match cert {
        Cert::Masks { .. } => unreachable!(),
        Cert::Conflict { .. } => {
            let spacing = spacing_of(options);
            let verdict = check_conflict(
                alloc,
                &layer.slabs,
                cert,
                spacing,
                options.overlap,
                &layer.mark_a,
                &layer.mark_b,
                has_markers(&choice_of(options)),
            )?;
            judged(alloc, cert, verdict)
        }
        Cert::Fault { name, at } => {
            let verdict = Verdict::WasFault {
                name: *name,
                at: *at,
            };
            judged(alloc, cert, verdict)
        }
    }
}

/// Reads OUT, and judges both masks by the certificate.
fn check_out<'a, H: Host>(
    alloc: Global,
    options: &CheckOptions<'_>,
    layer: &MarkedLayer,
    cert: &Cert,
    host: &mut H,
) -> Result<Output<'a>, ReadFault>
    requires ranges { AreInRangeForCheck (check_view options.now) }
    requires marks { AreMarks layer.now.mark_a layer.now.mark_b (marks_with (check_view options.now) layer.now) }
    requires cert { IsCert cert.now }
    requires kind { IsOfMasks cert.now }
    ensures made { IfOk result (λ x. IsMadeOfCert (H.told host.old) (check_view options.now) (marks_with (check_view options.now) layer.now) layer.now.slabs cert.now (output_view x)) }
    ensures cause { HasReadCause (H.read_faults host.old) (H.read_faults host.new) result }
    ensures not_large { IsErrOf result ReadFault.TooLarge → ⊥ }
    ensures same { H.told host.new ≡ H.told host.old }
    ensures others { H.write_faults host.new ≡ H.write_faults host.old }
    ensures calls { Logged (H.log host.old) (H.log host.new) (AreReadsOf (check_view options.now).output) }
{
    let Some(bytes) = read_input(alloc, host, options.output)? else {
        return Ok(too_large(alloc, NamedFile::Masks)?);
    };
    Ok(check_bytes(alloc, options, layer, cert, bytes)?)
}

/// Takes both masks from the bytes of OUT, and judges them by the certificate.
fn check_bytes<'a>(
    alloc: Global,
    options: &CheckOptions<'_>,
    layer: &MarkedLayer,
    cert: &Cert,
    bytes: Vec<u8>,
) -> Result<Output<'a>, AllocError>
    requires size { length bytes.items ≤ limit }
    requires ranges { AreInRangeForCheck (check_view options.now) }
    requires marks { AreMarks layer.now.mark_a layer.now.mark_b (marks_with (check_view options.now) layer.now) }
    requires cert { IsCert cert.now }
    requires kind { IsOfMasks cert.now }
    ensures { IfOk result (λ x. IsCheckOfMasks (check_view options.now) (marks_with (check_view options.now) layer.now) layer.now.slabs cert.now bytes.items (output_view x)) }
{
    let a = match layer_within(alloc, &mask_choice(options.a), bytes.as_slice()) {
        Ok(a) => a.slabs,
        Err(LayerFault::Refused { name, at }) => return refused(alloc, NamedFile::Masks, name, at),
        Err(LayerFault::NoMemory) => return Err(AllocError),
    };
    let b = match layer_of(alloc, &mask_choice(options.b), bytes) {
        Ok(b) => b.slabs,
        Err(LayerFault::Refused { name, at }) => return refused(alloc, NamedFile::Masks, name, at),
        Err(LayerFault::NoMemory) => return Err(AllocError),
    };
    let spacing = spacing_of(options);
    let verdict = check_masks(
        alloc,
        &layer.slabs,
        &a,
        &b,
        cert,
        spacing,
        options.overlap,
        &layer.mark_a,
        &layer.mark_b,
    )?;
    judged(alloc, cert, verdict)
}

/// The layer that is checked, and its markers.
fn choice_of<'a>(options: &CheckOptions<'a>) -> MarkedChoice<'a>
    ensures { marked_choice_view result ≡ check_marked (check_view options.now) }
{
    MarkedChoice {
        layer: LayerChoice {
            top: options.top,
            layer: options.layer,
            datatype: options.datatype,
        },
        mark_a: options.mark_a,
        mark_b: options.mark_b,
    }
}

/// How far apart features are to be on one mask, in database units.
fn spacing_of(options: &CheckOptions<'_>) -> Spacing
    ensures { result ≡ check_spacing (check_view options.now) }
{
    Spacing {
        rule: options.rule,
        corner: options.corner,
    }
}

/// The layer of a mask, in the structure that no reference names.
fn mask_choice<'a>(layer: u16) -> LayerChoice<'a>
    ensures { choice_view result ≡ mask_choice_of layer }
{
    LayerChoice {
        top: None,
        layer,
        datatype: 0,
    }
}

/// What is said of a verdict.
fn judged<'a>(alloc: Global, cert: &Cert, verdict: Verdict) -> Result<Output<'a>, AllocError>
    ensures { IfOk result (λ x. output_view x ≡ verdict_outcome cert.now verdict) }
{
    let line = verdict_line(alloc, cert, verdict)?;
    Ok(said(alloc, status_by(verdict), line))
}

/// A check is done where nothing is broken.
fn status_by(verdict: Verdict) -> Status
    ensures { result ≡ verdict_status verdict }
{
    match verdict {
        Verdict::Valid => Status::Done,
        _ => Status::CheckNo,
    }
}
