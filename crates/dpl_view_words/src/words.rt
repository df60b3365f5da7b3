//! The command line of `dplview`, read with `clap`.
ghost use Rattle.std.specs.Prelude.{◌≤◌, IfOk, IfSome};
ghost use Rattle.dpl_answer.specs.Flat.{AreWorkers, IsTile};
ghost use Rattle.dpl_view.specs.Findings.{IsInRange};
ghost use Rattle.dpl_view_words.specs.Requests.{IsSound};

use Form::{File, Flag, Name, Number};
use Given::{Default, Optional, Required};
use clap::builder::ValueParser;
use clap::error::ErrorKind;
use clap::{Arg, ArgAction, ArgMatches, Command, Error, value_parser};
use dpl_answer::Sharing;
use dpl_layer::LayerChoice;
use dpl_view::Order;
use std::alloc::{AllocError, Global};

/// What a command line asks for.
#[derive(Drop)]
pub enum Request<'a> {
    /// All odd cycles of a layer.
    Conflicts(SplitOptions<'a>),
    /// The stitches of a layer's split.
    Stitches(SplitOptions<'a>),
    /// What a file holds.
    Layers(FileOptions<'a>),
}

/// What a command line of `layers` says.
#[derive(Drop)]
pub struct FileOptions<'a> {
    /// The name of the structure whose points are counted. Where none is named, it is the one that no reference names.
    pub top: Option<&'a str>,
    /// Whether JSON is said.
    pub json: bool,
    /// The name of the layout.
    pub input: &'a str,
}

/// What a command line of `conflicts` or `stitches` says.
#[derive(Drop)]
pub struct SplitOptions<'a> {
    /// What is asked of the layout.
    pub order: Order<'a>,
    /// Whether JSON is said.
    pub json: bool,
    /// The name of the layout.
    pub input: &'a str,
    /// The name of the marker database that is written, if one is.
    pub output: Option<&'a str>,
}

/// Whether an argument must be given.
#[derive(Clone, Copy)]
enum Given {
    /// It must be.
    Required,
    /// It may be left out, and has this value then.
    Default(&'static [&'static str; 1]),
    /// It may be left out.
    Optional,
}

impl Given {
    /// Whether it must be.
    fn is_required(self) -> bool {
        match self {
            Required => true,
            Default(_) | Optional => false,
        }
    }

    /// The values that it has where it is left out.
    fn defaults(self) -> &'static [&'static str] {
        match self {
            Default(value) => value,
            Required | Optional => &[],
        }
    }
}

/// The form of an argument.
#[derive(Clone, Copy)]
enum Form {
    /// An option with a whole number from the first to the second.
    Number(u32, u32),
    /// An option with a name.
    Name,
    /// An option without a value.
    Flag,
    /// A file, by its place, which the help calls so.
    File(&'static str),
}

impl Form {
    /// The argument of this name, in this form.
    fn of<'a>(self, arg: Arg<'a>, id: &'a str) -> Arg<'a> {
        match self {
            Number(low, high) => arg
                .long(id)
                .value_name("N")
                .value_parser(number_parser(low, high)),
            Name => arg.long(id).value_name("NAME"),
            Flag => arg.long(id).action(ArgAction::SetTrue),
            File(name) => arg.value_name(name),
        }
    }
}

/// What reads a whole number within a range.
fn number_parser<'a>(low: u32, high: u32) -> ValueParser<'a> {
    value_parser!(u32).range(i64::from(low)..=i64::from(high))
}

/// An argument of a subcommand.
#[derive(Clone, Copy)]
struct Argument {
    id: &'static str,
    given: Given,
    form: Form,
    /// Whether each subcommand takes it, and not only those that split a layer.
    is_common: bool,
    help: &'static str,
}

/// The arguments in order.
static ARGUMENTS: [Argument; 10] = [
    Argument {
        id: "layer",
        given: Required,
        form: Number(0, 65_535),
        is_common: false,
        help: "The layer",
    },
    Argument {
        id: "rule",
        given: Required,
        form: Number(1, 1_000_000),
        is_common: false,
        help: "How far apart features are on one mask, in database units",
    },
    Argument {
        id: "overlap",
        given: Required,
        form: Number(1, 1_000_000),
        is_common: false,
        help: "How long a stitch is, in database units",
    },
    Argument {
        id: "datatype",
        given: Default(&["0"]),
        form: Number(0, 65_535),
        is_common: false,
        help: "The datatype of its shapes",
    },
    Argument {
        id: "tile",
        given: Default(&["4096"]),
        form: Number(1, 1_073_741_824),
        is_common: false,
        help: "The least side of a tile; it changes no answer",
    },
    Argument {
        id: "workers",
        given: Default(&["4"]),
        form: Number(1, 64),
        is_common: false,
        help: "How many threads may share the work; it changes no answer",
    },
    Argument {
        id: "top",
        given: Optional,
        form: Name,
        is_common: true,
        help: "The structure in which the layout begins",
    },
    Argument {
        id: "json",
        given: Optional,
        form: Flag,
        is_common: true,
        help: "Say JSON",
    },
    Argument {
        id: "in",
        given: Required,
        form: File("IN"),
        is_common: true,
        help: "A GDSII layout",
    },
    Argument {
        id: "out",
        given: Optional,
        form: File("OUT"),
        is_common: false,
        help: "A marker database of KLayout's that is written",
    },
];

impl Argument {
    /// The argument as `clap` takes it.
    fn arg<'a>(self, alloc: Global) -> Arg<'a> {
        let arg = Arg::new(alloc, self.id)
            .required(self.given.is_required())
            .default_values(self.given.defaults())
            .help(self.help);
        self.form.of(arg, self.id)
    }
}

/// A subcommand.
#[derive(Clone, Copy)]
struct Level {
    name: &'static str,
    about: &'static str,
    /// Whether it splits a layer.
    splits: bool,
}

/// The subcommands in order.
static LEVELS: [Level; 3] = [
    Level {
        name: "conflicts",
        about: "All odd cycles of conflicts of a layer, one for each component that has one",
        splits: true,
    },
    Level {
        name: "stitches",
        about: "The stitches of a layer's split",
        splits: true,
    },
    Level {
        name: "layers",
        about: "Structures, tops and layers of a layout, with how many elements they have",
        splits: false,
    },
];

impl Level {
    /// The subcommand as `clap` takes it, with the arguments that it has.
    fn command<'a>(self, alloc: Global) -> Result<Command<'a>, AllocError> {
        let mut command = Command::new(alloc, self.name).about(self.about);
        for argument in &ARGUMENTS {
            if self.splits || argument.is_common {
                command = command.arg(argument.arg(alloc))?;
            }
        }
        Ok(command)
    }
}

/// The program's own command, before its subcommands.
fn top_command<'a>(alloc: Global, version: &'a str) -> Command<'a> {
    Command::new(alloc, "dplview")
        .version(version)
        .about("Shows what a layout holds for double patterning")
        .subcommand_required(true)
}

/// Adds the subcommand of a level.
fn with_level<'a>(
    alloc: Global,
    command: Command<'a>,
    level: Level,
) -> Result<Command<'a>, AllocError> {
    match level.command(alloc) {
        Ok(shown) => command.subcommand(shown),
        Err(error) => {
            drop(command);
            Err(error)
        }
    }
}

/// The whole command line.
fn view_command<'a>(alloc: Global, version: &'a str) -> Result<Command<'a>, AllocError> {
    let mut command = top_command(alloc, version);
    for level in &LEVELS {
        command = with_level(alloc, command, *level)?;
    }
    Ok(command)
}

/// What the words of a command line ask for. The error has the text of the help or the version where those are asked for, and says what is wrong with the words where they ask for nothing.
pub fn read_words<'a>(
    alloc: Global,
    version: &'a str,
    words: &'a [&'a str],
) -> Result<Request<'a>, Error>
    ensures { IfOk result IsSound }
{
    let mut command = view_command(alloc, version)?;
    parsed(&mut command, words)
}

/// What the words ask for, by this command.
fn parsed<'a>(command: &mut Command<'a>, words: &'a [&'a str]) -> Result<Request<'a>, Error>
    ensures { IfOk result IsSound }
{
    let matches = command.try_get_matches_from_mut(words)?;
    match asked(&matches) {
        Some(request) => Ok(request),
        None => no_command(command),
    }
}

/// The error of words without a subcommand.
fn no_command<'a>(command: &mut Command<'a>) -> Result<Request<'a>, Error>
    ensures { IfOk result IsSound }
{
    Err(command.error(ErrorKind::MissingSubcommand, "no command")?)
}

/// What the matches ask for.
fn asked<'a>(matches: &ArgMatches<'a>) -> Option<Request<'a>>
    ensures { IfSome result IsSound }
{
    let (name, inner) = matches.subcommand()?;
    match name {
        "layers" => Some(Request::Layers(file_options(inner)?)),
        "stitches" => Some(Request::Stitches(split_options(inner)?)),
        _ => Some(Request::Conflicts(split_options(inner)?)),
    }
}

/// What the matches of `layers` say.
fn file_options<'a>(matches: &ArgMatches<'a>) -> Option<FileOptions<'a>> {
    let input = matches.get_str("in")?;
    Some(FileOptions {
        top: matches.get_str("top"),
        json: matches.get_flag("json"),
        input,
    })
}

/// What the matches of `conflicts` or `stitches` say.
fn split_options<'a>(matches: &ArgMatches<'a>) -> Option<SplitOptions<'a>>
    ensures { IfSome result (λ o. IsInRange o.order) }
{
    let order = order_of(matches)?;
    let input = matches.get_str("in")?;
    Some(SplitOptions {
        order,
        json: matches.get_flag("json"),
        input,
        output: matches.get_str("out"),
    })
}

/// The order that the matches of a subcommand give.
fn order_of<'a>(matches: &ArgMatches<'a>) -> Option<Order<'a>>
    ensures { IfSome result IsInRange }
{
    let rule = number_in(matches, "rule", 1, 1_000_000)?;
    let overlap = number_in(matches, "overlap", 1, 1_000_000)?;
    let choice = choice_of(matches)?;
    let sharing = sharing_of(matches)?;
    Some(Order {
        choice,
        rule,
        overlap,
        sharing,
    })
}

/// The layer that the matches of a subcommand name.
fn choice_of<'a>(matches: &ArgMatches<'a>) -> Option<LayerChoice<'a>> {
    let layer = number_in(matches, "layer", 0, 65_535)?;
    let datatype = number_in(matches, "datatype", 0, 65_535)?;
    Some(LayerChoice {
        top: matches.get_str("top"),
        layer: layer as u16,
        datatype: datatype as u16,
    })
}

/// How the work is shared, as the matches of a subcommand say.
fn sharing_of(matches: &ArgMatches) -> Option<Sharing>
    ensures { IfSome result (λ s. IsTile s.tile × AreWorkers s.workers) }
{
    let tile = number_in(matches, "tile", 1, 1_073_741_824)?;
    let workers = number_in(matches, "workers", 1, 64)?;
    Some(Sharing { tile, workers })
}

/// The number of an option, if it lies in its range.
fn number_in(matches: &ArgMatches, id: &str, low: u32, high: u32) -> Option<u32>
    ensures { IfSome result (λ n. (low ≤ n) × (n ≤ high)) }
{
    let number = matches.get_one::<u32>(id)?;
    if number < low || number > high {
        return None;
    }
    Some(number)
}
