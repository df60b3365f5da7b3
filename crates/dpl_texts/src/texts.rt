//! The lines that are said.
ghost use Rattle.std.specs.Prelude.{◌≡◌, IfOk, None, Some, string_bytes};
ghost use Rattle.dpl_spec_verdict.specs.declared.Verdict.TheVariants.{Counts, Cover, Marked, Overlap, Rules, SpacingA, SpacingB};
ghost use Rattle.dpl_texts.specs.Texts.{bad_line_line as bad_line_line_of, broken_line, conflict_line as conflict_line_of, demo_line as demo_line_of, done_line as done_line_of, file_word, layer_line as layer_line_of, refused_file_line as refused_file_line_of, refused_line as refused_line_of, usage_line as usage_line_of, valid_line as valid_line_of, verdict_line as verdict_line_of};

use dpl_base::Pt;
use dpl_cert::{Cert, Head, Name};
use dpl_spec_verdict::Verdict;
use std::alloc::{AllocError, Global};

/// A file that is named in a line.
#[derive(Clone, Copy, Debug)]
pub enum NamedFile {
    /// The layout, "in".
    Layout,
    /// The certificate, "cert".
    Certificate,
    /// The file of masks, "out".
    Masks,
    /// The text of edits, "edits".
    Edits,
}

/// How the command line is written, in a line for each command. Layers and datatypes are those of the GDSII Stream Format, Release 6; the rule, the overlap, the corner rule and the tile are in database units.
pub const USAGE: &str =
    "usage: dpl split --layer N --rule N --overlap N [--corner N] [--datatype N] [--top NAME] [--a N] [--b N] [--mark-a N] [--mark-b N] [--tile N] [--workers N] [--fewer] IN OUT CERT
       dpl check --layer N --rule N --overlap N [--corner N] [--datatype N] [--top NAME] [--a N] [--b N] [--mark-a N] [--mark-b N] IN OUT CERT
       dpl demo --seed N --rows N [--tile N] [--workers N]
       dpl batch --rule N --overlap N [--corner N] [--datatype N] [--top NAME] [--a N] [--b N] [--tile N] [--workers N] IN PREFIX LAYER...
       dpl edit --layer N --rule N --overlap N [--corner N] [--datatype N] [--top NAME] [--a N] [--b N] [--tile N] IN EDITS OUT CERT
";

/// How the command line is written: `USAGE` as a text of its own.
pub fn usage_line(alloc: Global) -> Result<String, AllocError>
    ensures { IfOk result (λ s. string_bytes s ≡ usage_line_of) }
{
    String::from_str(alloc, USAGE)
}

/// What is said of the masks of a layer: the counts of its decomposition, how many stitches there are, and how many slabs each mask has.
pub fn done_line(
    alloc: Global,
    head: &Head,
    stitches: usize,
    na: usize,
    nb: usize,
) -> Result<String, AllocError>
    ensures { IfOk result (λ s. string_bytes s ≡ done_line_of head.now stitches na nb) }
{
    format!(in alloc;
        "done features {} pieces {} zones {} stitches {stitches} a {na} b {nb}\n",
        head.features, head.pieces, head.zones
    )
}

/// What is said of the masks of a made-up layout, with the same counts.
pub fn demo_line(
    alloc: Global,
    head: &Head,
    stitches: usize,
    na: usize,
    nb: usize,
) -> Result<String, AllocError>
    ensures { IfOk result (λ s. string_bytes s ≡ demo_line_of head.now stitches na nb) }
{
    format!(in alloc;
        "demo features {} pieces {} zones {} stitches {stitches} a {na} b {nb}\n",
        head.features, head.pieces, head.zones
    )
}

/// What is said of an odd cycle of `n` pieces and anchors.
pub fn conflict_line(alloc: Global, n: usize) -> Result<String, AllocError>
    ensures { IfOk result (λ s. string_bytes s ≡ conflict_line_of n) }
{
    format!(in alloc; "conflict cycle {n}\n")
}

/// A line behind the number of the layer of which it tells.
pub fn layer_line(alloc: Global, layer: u16, line: &str) -> Result<String, AllocError>
    ensures { IfOk result (λ s. string_bytes s ≡ layer_line_of layer line.now) }
{
    format!(in alloc; "layer {layer} {line}")
}

/// What is said of the first fault of a layout: its name, and the number that a certificate has behind it.
pub fn refused_line(alloc: Global, name: Name, at: u64) -> Result<String, AllocError>
    ensures { IfOk result (λ s. string_bytes s ≡ refused_line_of name at) }
{
    format!(in alloc; "refused {name} {at}\n")
}

/// What is said of the first fault of one of the files that a command reads, by the file, the name of the fault, and the number behind it.
pub fn refused_file_line(
    alloc: Global,
    file: NamedFile,
    name: Name,
    at: u64,
) -> Result<String, AllocError>
    ensures { IfOk result (λ s. string_bytes s ≡ refused_file_line_of (file_word file) name at) }
{
    match file {
        NamedFile::Layout => { format!(in alloc; "refused in {name} {at}\n") }
        NamedFile::Certificate => { format!(in alloc; "refused cert {name} {at}\n") }
        NamedFile::Masks => { format!(in alloc; "refused out {name} {at}\n") }
        NamedFile::Edits => { format!(in alloc; "refused edits {name} {at}\n") }
    }
}

/// What is said of a text whose first bad line is the `n`-th, counted from 1.
pub fn bad_line_line(alloc: Global, file: NamedFile, n: u64) -> Result<String, AllocError>
    ensures { IfOk result (λ s. string_bytes s ≡ bad_line_line_of (file_word file) n) }
{
    match file {
        NamedFile::Layout => { format!(in alloc; "refused in Line {n}\n") }
        NamedFile::Certificate => { format!(in alloc; "refused cert Line {n}\n") }
        NamedFile::Masks => { format!(in alloc; "refused out Line {n}\n") }
        NamedFile::Edits => { format!(in alloc; "refused edits Line {n}\n") }
    }
}

/// The line where nothing is broken. A certificate of a fault is never valid.
fn valid_line(alloc: Global, cert: &Cert) -> Result<String, AllocError>
    ensures { IfOk result (λ s. string_bytes s ≡ valid_line_of cert.now) }
{
    match cert {
        Cert::Masks { stitches, .. } => {
            format!(in alloc; "valid masks stitches {}\n", stitches.items().len())
        }
        Cert::Conflict { cycle, .. } => {
            format!(in alloc; "valid conflict cycle {}\n", cycle.items().len())
        }
        Cert::Fault { .. } => Ok(String::new(alloc)),
    }
}

/// What is said of a verdict: the first property that is broken, and what shows it; and what the certificate says, where none is.
pub fn verdict_line(alloc: Global, cert: &Cert, verdict: Verdict) -> Result<String, AllocError>
    ensures { IfOk result (λ s. string_bytes s ≡ verdict_line_of cert.now verdict) }
{
    match verdict {
        Verdict::Valid => valid_line(alloc, cert),
        Verdict::Rules {
            rule,
            overlap,
            corner,
        } => rules_line(alloc, rule, overlap, corner),
        Verdict::WasFault { name, at } => format!(in alloc; "no WasFault {name} {at}\n"),
        Verdict::Counts {
            features,
            pieces,
            zones,
        } => counts_line(alloc, features, pieces, zones),
        Verdict::Cover { at } => cover_line(alloc, &at),
        Verdict::Overlap { at } => overlap_line(alloc, &at),
        Verdict::SpacingA { first, second } => spacing_a_line(alloc, &first, &second),
        Verdict::SpacingB { first, second } => spacing_b_line(alloc, &first, &second),
        Verdict::Marked { at } => marked_line(alloc, &at),
        Verdict::Stitch { index } => format!(in alloc; "no Stitch {index}\n"),
        Verdict::Piece { index } => format!(in alloc; "no Piece {index}\n"),
        Verdict::Gain { index } => format!(in alloc; "no Gain {index}\n"),
        Verdict::Cycle { place } => format!(in alloc; "no Cycle {place}\n"),
    }
}

/// The certificate is of another rule, overlap or corner rule, of these, in database units.
fn rules_line(
    alloc: Global,
    rule: u32,
    overlap: u32,
    corner: Option<u32>,
) -> Result<String, AllocError>
    ensures { IfOk result (λ s. string_bytes s ≡ broken_line (Rules rule overlap corner)) }
{
    match corner {
        None => plain_rules_line(alloc, rule, overlap),
        Some(corner) => cornered_rules_line(alloc, rule, overlap, corner),
    }
}

/// The line where no corner rule is named.
fn plain_rules_line(alloc: Global, rule: u32, overlap: u32) -> Result<String, AllocError>
    ensures { IfOk result (λ s. string_bytes s ≡ broken_line (Rules rule overlap None)) }
{
    format!(in alloc; "no Rules {rule} {overlap}\n")
}

/// The line where a corner rule is named.
fn cornered_rules_line(
    alloc: Global,
    rule: u32,
    overlap: u32,
    corner: u32,
) -> Result<String, AllocError>
    ensures { IfOk result (λ s. string_bytes s ≡ broken_line (Rules rule overlap (Some corner))) }
{
    format!(in alloc; "no Rules {rule} {overlap} {corner}\n")
}

/// The certificate has other counts of features, pieces or zones than the layer, which has these.
fn counts_line(alloc: Global, features: u64, pieces: u64, zones: u64) -> Result<String, AllocError>
    ensures { IfOk result (λ s. string_bytes s ≡ broken_line (Counts features pieces zones)) }
{
    format!(in alloc; "no Counts {features} {pieces} {zones}\n")
}

/// A square is in the layer and on no mask, or on a mask and not in the layer.
fn cover_line(alloc: Global, at: &Pt) -> Result<String, AllocError>
    ensures { IfOk result (λ s. string_bytes s ≡ broken_line (Cover at.now)) }
{
    format!(in alloc; "no Cover {} {}\n", at.x, at.y)
}

/// A square is on both masks and in no stitch.
fn overlap_line(alloc: Global, at: &Pt) -> Result<String, AllocError>
    ensures { IfOk result (λ s. string_bytes s ≡ broken_line (Overlap at.now)) }
{
    format!(in alloc; "no Overlap {} {}\n", at.x, at.y)
}

/// Two squares of different features are closer than the rule on the first mask.
fn spacing_a_line(alloc: Global, first: &Pt, second: &Pt) -> Result<String, AllocError>
    ensures { IfOk result (λ s. string_bytes s ≡ broken_line (SpacingA first.now second.now)) }
{
    format!(in alloc;
        "no SpacingA {} {} {} {}\n",
        first.x, first.y, second.x, second.y
    )
}

/// Two squares of different features are closer than the rule on the second mask.
fn spacing_b_line(alloc: Global, first: &Pt, second: &Pt) -> Result<String, AllocError>
    ensures { IfOk result (λ s. string_bytes s ≡ broken_line (SpacingB first.now second.now)) }
{
    format!(in alloc;
        "no SpacingB {} {} {} {}\n",
        first.x, first.y, second.x, second.y
    )
}

/// A square of the layer is fixed to a mask and isn't on that one alone.
fn marked_line(alloc: Global, at: &Pt) -> Result<String, AllocError>
    ensures { IfOk result (λ s. string_bytes s ≡ broken_line (Marked at.now)) }
{
    format!(in alloc; "no Marked {} {}\n", at.x, at.y)
}
