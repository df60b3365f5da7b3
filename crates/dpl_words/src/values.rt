//! The values that a command line gives.
ghost use Rattle.std.specs.Prelude.{◌≡◌, ◌==◌, Some, None, codes, count_by, IfOk, IfSome, IsErrOf, is_some, map, not, option_map, string_bytes, true};
ghost use Rattle.std.specs.List.{list_all};
ghost use Rattle.std.specs.Str.{bytes_eq};
ghost use Rattle.dpl_words.specs.declared.values.WordsFault.TheVariants.{NoMemory};
ghost use Rattle.clap.specs.Walk.{first_of, many_of, one_of, rows_of, texts};
ghost use Rattle.clap.specs.Simple.{subcommand_rows_of};
ghost use Rattle.clap.specs.Words.{found_of};
ghost use Rattle.dpl_words.specs.Meaning.{are_single as specs_are_single, asked_by, asked_of, batch_if_sound, batch_values, batch_view, certificate_name as certificate_name_of, check_if_sound, check_values, check_view, corner_in, demo_values, demo_view, edit_if_sound, edit_values, edit_view, flag_in, is_apart as specs_is_apart, is_batch_apart, is_beside as specs_is_beside, is_edit_apart as specs_is_edit_apart, mask_name as mask_name_of, number_at, number_in, numbers_in, text_in, request_of, request_view, split_if_sound, split_values, split_view};
ghost use Rattle.dpl_words.specs.Ranges.{AreFrom, AreThere, AreThereForBatch, AreThereForCheck, AreThereForDemo, AreThereForEdit, HasItsValues, IsApart, IsFlagText, IsInRange, IsThere};

use crate::definition::dpl_command;
use clap::ArgMatches;
use clap::error::ErrorKind;
use std::alloc::{AllocError, Global};

/// What a command line of `split` says.
#[derive(Drop)]
pub struct SplitOptions<'a> {
    pub layer: u16,
    pub datatype: u16,
    pub rule: u32,
    pub overlap: u32,
    pub corner: u32,
    pub top: Option<&'a str>,
    pub a: u16,
    pub b: u16,
    pub mark_a: Option<u16>,
    pub mark_b: Option<u16>,
    pub tile: u32,
    pub workers: u32,
    pub fewer: bool,
    pub input: &'a str,
    pub output: &'a str,
    pub certificate: &'a str,
}

/// What a command line of `check` says.
#[derive(Drop)]
pub struct CheckOptions<'a> {
    pub layer: u16,
    pub datatype: u16,
    pub rule: u32,
    pub overlap: u32,
    pub corner: u32,
    pub top: Option<&'a str>,
    pub a: u16,
    pub b: u16,
    pub mark_a: Option<u16>,
    pub mark_b: Option<u16>,
    pub input: &'a str,
    pub output: &'a str,
    pub certificate: &'a str,
}

/// What a command line of `demo` says.
#[derive(Drop)]
pub struct DemoOptions {
    pub seed: u64,
    pub rows: u32,
    pub tile: u32,
    pub workers: u32,
}

/// What a command line of `batch` says.
#[derive(Drop)]
pub struct BatchOptions<'a> {
    pub datatype: u16,
    pub rule: u32,
    pub overlap: u32,
    pub corner: u32,
    pub top: Option<&'a str>,
    pub a: u16,
    pub b: u16,
    pub tile: u32,
    pub workers: u32,
    pub input: &'a str,
    /// What the names of all files begin with that are written.
    pub prefix: &'a str,
    /// The layers in the order given, each once.
    pub layers: Vec<u16>,
}

/// What a command line of `edit` says.
#[derive(Drop)]
pub struct EditOptions<'a> {
    pub layer: u16,
    pub datatype: u16,
    pub rule: u32,
    pub overlap: u32,
    pub corner: u32,
    pub top: Option<&'a str>,
    pub a: u16,
    pub b: u16,
    pub tile: u32,
    pub input: &'a str,
    /// The file that lists the edits.
    pub edits: &'a str,
    pub output: &'a str,
    pub certificate: &'a str,
}

/// The most layers of a command line.
const MOST_LAYERS: usize = 64;

/// What a command line asks for.
#[derive(Drop)]
pub enum Request<'a> {
    Split(SplitOptions<'a>),
    Check(CheckOptions<'a>),
    Demo(DemoOptions),
    Batch(BatchOptions<'a>),
    Edit(EditOptions<'a>),
}

/// The number of an option, as a `u16`.
fn number_16(matches: &ArgMatches, id: &str) -> u16
    requires { is_some (number_at 16 id.now (rows_of (found_of matches.now))) ≡ true }
    ensures { result ≡ number_in 16 id.now (rows_of (found_of matches.now)) }
{
    matches.get_one::<u16>(id).unwrap()
}

/// The number of an option, as a `u32`.
fn number_32(matches: &ArgMatches, id: &str) -> u32
    requires { is_some (number_at 32 id.now (rows_of (found_of matches.now))) ≡ true }
    ensures { result ≡ number_in 32 id.now (rows_of (found_of matches.now)) }
{
    matches.get_one::<u32>(id).unwrap()
}

/// The number of an option that may be left out, as a `u16`.
fn given_16(matches: &ArgMatches, id: &str) -> Option<u16>
    ensures { result ≡ number_at 16 id.now (rows_of (found_of matches.now)) }
{
    matches.get_one::<u16>(id)
}

/// The number of an option that may be left out, as a `u32`.
fn given_32(matches: &ArgMatches, id: &str) -> Option<u32>
    ensures { result ≡ number_at 32 id.now (rows_of (found_of matches.now)) }
{
    matches.get_one::<u32>(id)
}

/// The corner rule: the rule, where none is given.
fn corner(matches: &ArgMatches) -> u32
    requires { is_some (number_at 32 (codes "rule") (rows_of (found_of matches.now))) ≡ true }
    ensures { result ≡ corner_in (rows_of (found_of matches.now)) }
{
    given_32(matches, "corner").unwrap_or(number_32(matches, "rule"))
}

/// The number of an option, as a `u64`.
fn number_64(matches: &ArgMatches, id: &str) -> u64
    requires { is_some (number_at 64 id.now (rows_of (found_of matches.now))) ≡ true }
    ensures { result ≡ number_in 64 id.now (rows_of (found_of matches.now)) }
{
    matches.get_one::<u64>(id).unwrap()
}

/// Whether a flag is given.
fn flag(matches: &ArgMatches, id: &str) -> bool
    requires { IsFlagText (one_of id.now (rows_of (found_of matches.now))) }
    ensures { result ≡ flag_in id.now (rows_of (found_of matches.now)) }
{
    matches.get_flag(id)
}

/// The numbers of an argument that is given once or more, in order.
fn numbers_16(alloc: Global, matches: &ArgMatches, id: &str) -> Result<Vec<u16>, AllocError>
    requires { AreFrom 16 0 65535 (many_of id.now (rows_of (found_of matches.now))) }
    ensures { IfOk result (λ v. v.items ≡ numbers_in 16 id.now (rows_of (found_of matches.now))) }
{
    let mut numbers = Vec::new(alloc);
    for number in matches.get_many::<u16>(id).unwrap() {
        numbers.push(number.unwrap())?;
    }
    Ok(numbers)
}

/// The first text of an argument.
fn text<'a>(matches: &ArgMatches<'a>, id: &str) -> Option<&'a str>
    ensures { option_map (λ t. t.now) result ≡ first_of id.now (rows_of (found_of matches.now)) }
{
    matches.get_str(id)
}

/// The first text of an argument that must be there.
fn required_text<'a>(matches: &ArgMatches<'a>, id: &str) -> &'a str
    requires { IsThere (first_of id.now (rows_of (found_of matches.now))) }
    ensures { result.now ≡ text_in id.now (rows_of (found_of matches.now)) }
{
    text(matches, id).unwrap()
}

/// The values of `split` among the entries.
fn split_options<'a>(matches: &ArgMatches<'a>) -> SplitOptions<'a>
    requires there { AreThere (rows_of (found_of matches.now)) }
    ensures { split_view result ≡ split_values (rows_of (found_of matches.now)) }
{
    SplitOptions {
        layer: number_16(matches, "layer"),
        datatype: number_16(matches, "datatype"),
        rule: number_32(matches, "rule"),
        overlap: number_32(matches, "overlap"),
        corner: corner(matches),
        top: text(matches, "top"),
        a: number_16(matches, "a"),
        b: number_16(matches, "b"),
        mark_a: given_16(matches, "mark-a"),
        mark_b: given_16(matches, "mark-b"),
        tile: number_32(matches, "tile"),
        workers: number_32(matches, "workers"),
        fewer: flag(matches, "fewer"),
        input: required_text(matches, "in"),
        output: required_text(matches, "out"),
        certificate: required_text(matches, "cert"),
    }
}

/// The values of `check` among the entries.
fn check_options<'a>(matches: &ArgMatches<'a>) -> CheckOptions<'a>
    requires there { AreThereForCheck (rows_of (found_of matches.now)) }
    ensures { check_view result ≡ check_values (rows_of (found_of matches.now)) }
{
    CheckOptions {
        layer: number_16(matches, "layer"),
        datatype: number_16(matches, "datatype"),
        rule: number_32(matches, "rule"),
        overlap: number_32(matches, "overlap"),
        corner: corner(matches),
        top: text(matches, "top"),
        a: number_16(matches, "a"),
        b: number_16(matches, "b"),
        mark_a: given_16(matches, "mark-a"),
        mark_b: given_16(matches, "mark-b"),
        input: required_text(matches, "in"),
        output: required_text(matches, "out"),
        certificate: required_text(matches, "cert"),
    }
}

/// The values of `demo` among the entries.
fn demo_options(matches: &ArgMatches) -> DemoOptions
    requires there { AreThereForDemo (rows_of (found_of matches.now)) }
    ensures { demo_view result ≡ demo_values (rows_of (found_of matches.now)) }
{
    DemoOptions {
        seed: number_64(matches, "seed"),
        rows: number_32(matches, "rows"),
        tile: number_32(matches, "tile"),
        workers: number_32(matches, "workers"),
    }
}

/// The values of `batch` among the entries.
fn batch_options<'a>(
    alloc: Global,
    matches: &ArgMatches<'a>,
) -> Result<BatchOptions<'a>, AllocError>
    requires there { AreThereForBatch (rows_of (found_of matches.now)) }
    ensures { IfOk result (λ o. batch_view o ≡ batch_values (rows_of (found_of matches.now))) }
{
    let layers = numbers_16(alloc, matches, "layer")?;
    Ok(BatchOptions {
        datatype: number_16(matches, "datatype"),
        rule: number_32(matches, "rule"),
        overlap: number_32(matches, "overlap"),
        corner: corner(matches),
        top: text(matches, "top"),
        a: number_16(matches, "a"),
        b: number_16(matches, "b"),
        tile: number_32(matches, "tile"),
        workers: number_32(matches, "workers"),
        input: required_text(matches, "in"),
        prefix: required_text(matches, "prefix"),
        layers,
    })
}

/// The values of `edit` among the entries.
fn edit_options<'a>(matches: &ArgMatches<'a>) -> EditOptions<'a>
    requires there { AreThereForEdit (rows_of (found_of matches.now)) }
    ensures { edit_view result ≡ edit_values (rows_of (found_of matches.now)) }
{
    EditOptions {
        layer: number_16(matches, "layer"),
        datatype: number_16(matches, "datatype"),
        rule: number_32(matches, "rule"),
        overlap: number_32(matches, "overlap"),
        corner: corner(matches),
        top: text(matches, "top"),
        a: number_16(matches, "a"),
        b: number_16(matches, "b"),
        tile: number_32(matches, "tile"),
        input: required_text(matches, "in"),
        edits: required_text(matches, "edits"),
        output: required_text(matches, "out"),
        certificate: required_text(matches, "cert"),
    }
}

/// Why words ask for nothing that the program does.
#[derive(Clone, Copy, Debug, PartialEq, Eq)]
pub enum WordsFault {
    /// Memory ran out.
    NoMemory,
    /// They aren't a command of the program, with its options and their values.
    Usage,
}

impl From<AllocError> for WordsFault {
    ghost from_gives = { λ _ e. e ≡ NoMemory };

    fn from(_: AllocError) -> Self {
        WordsFault::NoMemory
    }
}

/// What the words of a command line ask for.
pub fn read_words<'a>(alloc: Global, words: &'a [&'a str]) -> Result<Request<'a>, WordsFault>
    // What is read is what the words ask for, by the written definition of the command line.
    ensures read { IfOk result (λ r. request_of (texts words.entry.now) ≡ Some (request_view r)) }
    // Each number lies in the range that its option states, and the corner rule isn't above the rule.
    ensures ranges { IfOk result (λ r. IsInRange (request_view r)) }
    // Its masks have layers of their own, its files names of their own, and each layer of a batch is named once.
    ensures apart { IfOk result (λ r. IsApart (request_view r)) }
    // They are refused only where they ask for nothing.
    ensures usage { IsErrOf result WordsFault.Usage → request_of (texts words.entry.now) ≡ None }
{
    let command = dpl_command(alloc)?;
    let matches = match command.try_get_matches_from(words) {
        Ok(matches) => matches,
        Err(error) => return Err(fault_by(error.kind())),
    };
    asked(alloc, &matches)
}

/// The fault that an error of `clap` is.
fn fault_by(kind: ErrorKind) -> WordsFault
    ensures memory { kind ≡ ErrorKind.OutOfMemory → result ≡ WordsFault.NoMemory }
    ensures other { result ≡ WordsFault.NoMemory → kind ≡ ErrorKind.OutOfMemory }
{
    match kind {
        ErrorKind::OutOfMemory => WordsFault::NoMemory,
        _ => WordsFault::Usage,
    }
}

/// What the matches ask for.
fn asked<'a>(alloc: Global, matches: &ArgMatches<'a>) -> Result<Request<'a>, WordsFault>
    requires there { IfSome (subcommand_rows_of matches.now) HasItsValues }
    ensures read { IfOk result (λ r. asked_of (subcommand_rows_of matches.now) ≡ Some (request_view r)) }
    ensures ranges { IfOk result (λ r. IsInRange (request_view r)) }
    ensures apart { IfOk result (λ r. IsApart (request_view r)) }
    ensures usage { IsErrOf result WordsFault.Usage → asked_of (subcommand_rows_of matches.now) ≡ None }
{
    let Some((name, inner)) = matches.subcommand() else {
        return Err(WordsFault::Usage);
    };
    request_by(alloc, name, inner)
}

/// What the matches of the subcommand of this name ask for.
fn request_by<'a>(
    alloc: Global,
    name: &str,
    inner: &ArgMatches<'a>,
) -> Result<Request<'a>, WordsFault>
    requires there { HasItsValues (name.now, rows_of (found_of inner.now)) }
    ensures read { IfOk result (λ r. asked_by name.now (rows_of (found_of inner.now)) ≡ Some (request_view r)) }
    ensures ranges { IfOk result (λ r. IsInRange (request_view r)) }
    ensures apart { IfOk result (λ r. IsApart (request_view r)) }
    ensures usage { IsErrOf result WordsFault.Usage → asked_by name.now (rows_of (found_of inner.now)) ≡ None }
{
    match name {
        "split" => split_request(inner),
        "check" => check_request(inner),
        "demo" => Ok(Request::Demo(demo_options(inner))),
        "batch" => batch_request(alloc, inner),
        "edit" => edit_request(inner),
        _ => Err(WordsFault::Usage),
    }
}

/// What the matches of `split` ask for.
fn split_request<'a>(inner: &ArgMatches<'a>) -> Result<Request<'a>, WordsFault>
    requires there { AreThere (rows_of (found_of inner.now)) }
    ensures read { IfOk result (λ r. split_if_sound (split_values (rows_of (found_of inner.now))) ≡ Some (request_view r)) }
    ensures ranges { IfOk result (λ r. IsInRange (request_view r)) }
    ensures apart { IfOk result (λ r. IsApart (request_view r)) }
    ensures usage { IsErrOf result WordsFault.Usage → split_if_sound (split_values (rows_of (found_of inner.now))) ≡ None }
{
    let options = split_options(inner);
    let is_apart = is_apart(
        options.a,
        options.b,
        options.input,
        options.output,
        options.certificate,
    );
    if !is_apart || options.rule < options.corner {
        return Err(WordsFault::Usage);
    }
    Ok(Request::Split(options))
}

/// What the matches of `check` ask for.
fn check_request<'a>(inner: &ArgMatches<'a>) -> Result<Request<'a>, WordsFault>
    requires there { AreThereForCheck (rows_of (found_of inner.now)) }
    ensures read { IfOk result (λ r. check_if_sound (check_values (rows_of (found_of inner.now))) ≡ Some (request_view r)) }
    ensures ranges { IfOk result (λ r. IsInRange (request_view r)) }
    ensures apart { IfOk result (λ r. IsApart (request_view r)) }
    ensures usage { IsErrOf result WordsFault.Usage → check_if_sound (check_values (rows_of (found_of inner.now))) ≡ None }
{
    let options = check_options(inner);
    let is_apart = is_apart(
        options.a,
        options.b,
        options.input,
        options.output,
        options.certificate,
    );
    if !is_apart || options.rule < options.corner {
        return Err(WordsFault::Usage);
    }
    Ok(Request::Check(options))
}

/// What the matches of `batch` ask for.
fn batch_request<'a>(alloc: Global, inner: &ArgMatches<'a>) -> Result<Request<'a>, WordsFault>
    requires there { AreThereForBatch (rows_of (found_of inner.now)) }
    ensures read { IfOk result (λ r. batch_if_sound (batch_values (rows_of (found_of inner.now))) ≡ Some (request_view r)) }
    ensures ranges { IfOk result (λ r. IsInRange (request_view r)) }
    ensures apart { IfOk result (λ r. IsApart (request_view r)) }
    ensures usage { IsErrOf result WordsFault.Usage → batch_if_sound (batch_values (rows_of (found_of inner.now))) ≡ None }
{
    let options = batch_options(alloc, inner)?;
    let is_apart = are_apart(alloc, &options)?;
    if !is_apart || options.rule < options.corner {
        return Err(WordsFault::Usage);
    }
    Ok(Request::Batch(options))
}

/// What the matches of `edit` ask for.
fn edit_request<'a>(inner: &ArgMatches<'a>) -> Result<Request<'a>, WordsFault>
    requires there { AreThereForEdit (rows_of (found_of inner.now)) }
    ensures read { IfOk result (λ r. edit_if_sound (edit_values (rows_of (found_of inner.now))) ≡ Some (request_view r)) }
    ensures ranges { IfOk result (λ r. IsInRange (request_view r)) }
    ensures apart { IfOk result (λ r. IsApart (request_view r)) }
    ensures usage { IsErrOf result WordsFault.Usage → edit_if_sound (edit_values (rows_of (found_of inner.now))) ≡ None }
{
    let options = edit_options(inner);
    if !is_edit_apart(&options) || options.rule < options.corner {
        return Err(WordsFault::Usage);
    }
    Ok(Request::Edit(options))
}

/// Whether both masks have layers of their own, each of at most 64 layers is named once, and IN isn't written.
fn are_apart(alloc: Global, options: &BatchOptions<'_>) -> Result<bool, AllocError>
    ensures { IfOk result (λ apart. apart ≡ is_batch_apart (batch_view options.now)) }
{
    let layers = options.layers.as_slice();
    if options.a == options.b || layers.len() > MOST_LAYERS || !are_single(layers) {
        return Ok(false);
    }
    are_beside(alloc, options.input, options.prefix, layers)
}

/// How often a number stands among these.
fn times(numbers: &[u16], number: u16) -> usize
    ensures { result ≡ count_by (λ m. m == number) numbers.now }
{
    let mut times = 0;
    for other in numbers {
        if *other == number {
            times += 1;
        }
    }
    times
}

/// Whether each number stands once.
fn are_single(numbers: &[u16]) -> bool
    ensures { result ≡ specs_are_single numbers.now }
{
    for number in numbers {
        if times(numbers, *number) != 1 {
            return false;
        }
    }
    true
}

/// Whether no file of these layers has the name of IN.
fn are_beside(alloc: Global, input: &str, prefix: &str, layers: &[u16]) -> Result<bool, AllocError>
    ensures { IfOk result (λ beside. beside ≡ list_all (specs_is_beside input.now prefix.now) layers.now) }
{
    for layer in layers {
        if !is_beside(alloc, input, prefix, *layer)? {
            return Ok(false);
        }
    }
    Ok(true)
}

/// Whether neither file of a layer has the name of IN.
fn is_beside(alloc: Global, input: &str, prefix: &str, layer: u16) -> Result<bool, AllocError>
    ensures { IfOk result (λ beside. beside ≡ specs_is_beside input.now prefix.now layer) }
{
    let masks = is_other(input, mask_name(alloc, prefix, layer)?);
    let certificate = is_other(input, certificate_name(alloc, prefix, layer)?);
    Ok(masks && certificate)
}

/// Whether this isn't the name of IN.
fn is_other(input: &str, name: String) -> bool
    ensures { result ≡ not (bytes_eq input.now (string_bytes name)) }
{
    input != name.as_str()
}

/// The name of the file that `batch` writes a layer's masks to.
pub fn mask_name(alloc: Global, prefix: &str, layer: u16) -> Result<String, AllocError>
    ensures { IfOk result (λ s. string_bytes s ≡ mask_name_of prefix.now layer) }
{
    format!(in alloc; "{prefix}.{layer}.gds")
}

/// The name of the file that `batch` writes a layer's certificate to.
pub fn certificate_name(alloc: Global, prefix: &str, layer: u16) -> Result<String, AllocError>
    ensures { IfOk result (λ s. string_bytes s ≡ certificate_name_of prefix.now layer) }
{
    format!(in alloc; "{prefix}.{layer}.cert")
}

/// Whether both masks have layers of their own, and each file a name of its own.
fn is_apart(a: u16, b: u16, input: &str, output: &str, certificate: &str) -> bool
    ensures { result ≡ specs_is_apart a b input.now output.now certificate.now }
{
    a != b && input != output && input != certificate && output != certificate
}

/// Whether both masks of `edit` have layers of their own, and each of its four files a name of its own.
fn is_edit_apart(options: &EditOptions<'_>) -> bool
    ensures { result ≡ specs_is_edit_apart (edit_view options.now) }
{
    options.a != options.b
        && options.input != options.edits
        && options.input != options.output
        && options.input != options.certificate
        && options.edits != options.output
        && options.edits != options.certificate
        && options.output != options.certificate
}
