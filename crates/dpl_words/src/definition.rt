//! What `clap` is told of the command line.
ghost use Rattle.std.specs.Prelude.{◌≡◌, pos, IfOk, false, [], map};
ghost use Rattle.clap.specs.Walk.{rule_of};
ghost use Rattle.clap.specs.Simple.{app_of, with_subcommand};
ghost use Rattle.clap.specs.declared.builder.command.Command.TheViews.{out-Command as fields_of};
ghost use Rattle.dpl_words.specs.Definition.{dpl_app, new_option, rule_for, rule_given, rule_reading, shape_for, top_shape};
ghost use Rattle.clap.specs.declared.builder.value_parser.ValueParser.TheVariants as vp;

use Given::{ByPlace, Default, IfAny, Required};
use Values::{Flag, Number, Numbers, Text, Word};
use clap::builder::ValueParser;
use clap::{Arg, ArgAction, Command, value_parser};
use std::alloc::{AllocError, Global};

/// How an argument is given.
#[derive(Clone, Copy)]
enum Given<'a> {
    /// As an option that must be given.
    Required,
    /// As an option with a default.
    Default(&'a str),
    /// As an option that may be left out.
    IfAny,
    /// By its place, where it must be given.
    ByPlace,
}

impl<'a> Given<'a> {
    /// The argument of this name, with any value.
    fn arg(self, alloc: Global, id: &'a str) -> Arg<'a>
        ensures defined { rule_of result ≡ rule_given self.entry id.entry.now }
        ensures local { result.global ≡ false }
    {
        match self {
            Required => option(alloc, id).required(true),
            Default(text) => option(alloc, id).default_value(text),
            IfAny => option(alloc, id),
            ByPlace => Arg::new(alloc, id).required(true),
        }
    }
}

/// An option of this name.
fn option<'a>(alloc: Global, id: &'a str) -> Arg<'a>
    ensures defined { rule_of result ≡ new_option id.entry.now }
    ensures local { result.global ≡ false }
{
    Arg::new(alloc, id).long(id)
}

/// What the values of an argument are.
#[derive(Clone, Copy)]
enum Values {
    /// A whole number from the first to the second.
    Number(u32, u32),
    /// Any whole number of 64 bits.
    Word,
    /// A text.
    Text,
    /// None: the argument is given or left out.
    Flag,
    /// Whole numbers from the first to the second, one or more. Options may stand between them.
    Numbers(u32, u32),
}

impl Values {
    /// The argument with these values.
    fn of<'a>(self, arg: Arg<'a>) -> Arg<'a>
        ensures defined { rule_of result ≡ rule_reading self (rule_of arg.entry) }
        ensures local { result.global ≡ arg.entry.global }
    {
        match self {
            Number(low, high) => arg.value_parser(number_parser(low, high)),
            Word => arg.value_parser(value_parser!(u64)),
            Text => arg,
            Flag => arg.action(ArgAction::SetTrue),
            Numbers(low, high) => {
                arg.action(ArgAction::Append)
                    .value_parser(number_parser(low, high))
            }
        }
    }
}

/// What reads a whole number within a range.
fn number_parser<'a>(low: u32, high: u32) -> ValueParser<'a>
    ensures { result ≡ vp.Signed (pos low) (pos high) }
{
    value_parser!(u32).range(i64::from(low)..=i64::from(high))
}

/// An argument of a subcommand: its name, how it is given, and what its values are.
#[derive(Clone, Copy)]
struct Argument<'a>(&'a str, Given<'a>, Values);

impl<'a> Argument<'a> {
    /// The argument as `clap` takes it.
    fn arg(self, alloc: Global) -> Arg<'a>
        ensures defined { rule_of result ≡ rule_for self.entry }
        ensures local { result.global ≡ false }
    {
        self.2.of(self.1.arg(alloc, self.0))
    }
}

/// A subcommand.
#[derive(Clone, Copy)]
struct Level<'a> {
    name: &'a str,
    arguments: &'a [Argument<'a>],
}

impl<'a> Level<'a> {
    /// The subcommand as `clap` takes it.
    fn command(self, alloc: Global) -> Result<Command<'a>, AllocError>
        ensures shape { IfOk result (λ c. app_of c ≡ record { top = shape_for self.entry; subs = [] }) }
        ensures local { IfOk result (λ c. (fields_of c).has_globals ≡ false) }
    {
        let mut command = Command::new(alloc, self.name);
        for argument in self.arguments {
            command = command.arg(argument.arg(alloc))?;
        }
        Ok(command)
    }
}

/// The subcommands, each with its arguments in order.
static LEVELS: [Level<'static>; 5] = [
    Level {
        name: "split",
        arguments: &[
            Argument("layer", Required, Number(0, 65_535)),
            Argument("rule", Required, Number(1, 1_000_000)),
            Argument("overlap", Required, Number(1, 1_000_000)),
            Argument("corner", IfAny, Number(1, 1_000_000)),
            Argument("datatype", Default("0"), Number(0, 65_535)),
            Argument("top", IfAny, Text),
            Argument("a", Default("101"), Number(0, 65_535)),
            Argument("b", Default("102"), Number(0, 65_535)),
            Argument("mark-a", IfAny, Number(0, 65_535)),
            Argument("mark-b", IfAny, Number(0, 65_535)),
            Argument("tile", Default("4096"), Number(1, 1_073_741_824)),
            Argument("workers", Default("4"), Number(1, 64)),
            Argument("fewer", IfAny, Flag),
            Argument("in", ByPlace, Text),
            Argument("out", ByPlace, Text),
            Argument("cert", ByPlace, Text),
        ],
    },
    Level {
        name: "check",
        arguments: &[
            Argument("layer", Required, Number(0, 65_535)),
            Argument("rule", Required, Number(1, 1_000_000)),
            Argument("overlap", Required, Number(1, 1_000_000)),
            Argument("corner", IfAny, Number(1, 1_000_000)),
            Argument("datatype", Default("0"), Number(0, 65_535)),
            Argument("top", IfAny, Text),
            Argument("a", Default("101"), Number(0, 65_535)),
            Argument("b", Default("102"), Number(0, 65_535)),
            Argument("mark-a", IfAny, Number(0, 65_535)),
            Argument("mark-b", IfAny, Number(0, 65_535)),
            Argument("in", ByPlace, Text),
            Argument("out", ByPlace, Text),
            Argument("cert", ByPlace, Text),
        ],
    },
    Level {
        name: "demo",
        arguments: &[
            Argument("seed", Required, Word),
            Argument("rows", Required, Number(1, 1_000_000)),
            Argument("tile", Default("4096"), Number(1, 1_073_741_824)),
            Argument("workers", Default("4"), Number(1, 64)),
        ],
    },
    Level {
        name: "batch",
        arguments: &[
            Argument("rule", Required, Number(1, 1_000_000)),
            Argument("overlap", Required, Number(1, 1_000_000)),
            Argument("corner", IfAny, Number(1, 1_000_000)),
            Argument("datatype", Default("0"), Number(0, 65_535)),
            Argument("top", IfAny, Text),
            Argument("a", Default("101"), Number(0, 65_535)),
            Argument("b", Default("102"), Number(0, 65_535)),
            Argument("tile", Default("4096"), Number(1, 1_073_741_824)),
            Argument("workers", Default("4"), Number(1, 64)),
            Argument("in", ByPlace, Text),
            Argument("prefix", ByPlace, Text),
            Argument("layer", ByPlace, Numbers(0, 65_535)),
        ],
    },
    Level {
        name: "edit",
        arguments: &[
            Argument("layer", Required, Number(0, 65_535)),
            Argument("rule", Required, Number(1, 1_000_000)),
            Argument("overlap", Required, Number(1, 1_000_000)),
            Argument("corner", IfAny, Number(1, 1_000_000)),
            Argument("datatype", Default("0"), Number(0, 65_535)),
            Argument("top", IfAny, Text),
            Argument("a", Default("101"), Number(0, 65_535)),
            Argument("b", Default("102"), Number(0, 65_535)),
            Argument("tile", Default("4096"), Number(1, 1_073_741_824)),
            Argument("in", ByPlace, Text),
            Argument("edits", ByPlace, Text),
            Argument("out", ByPlace, Text),
            Argument("cert", ByPlace, Text),
        ],
    },
];

/// The program's own command, before its subcommands.
fn top_command<'a>(alloc: Global) -> Command<'a>
    ensures { app_of result ≡ record { top = top_shape; subs = [] } }
{
    Command::new(alloc, "dpl")
        .disable_help_flag(true)
        .disable_help_subcommand(true)
        .disable_version_flag(true)
        .subcommand_required(true)
}

/// Adds the subcommand of a level.
fn with_level<'a>(
    alloc: Global,
    command: Command<'a>,
    level: Level<'a>,
) -> Result<Command<'a>, AllocError>
    ensures { IfOk result (λ c. app_of c ≡ with_subcommand (app_of command.entry) (shape_for level.entry)) }
{
    match level.command(alloc) {
        Ok(shown) => command.subcommand(shown),
        Err(error) => {
            drop(command);
            Err(error)
        }
    }
}

/// The whole command line.
pub fn dpl_command<'a>(alloc: Global) -> Result<Command<'a>, AllocError>
    ensures { IfOk result (λ c. app_of c ≡ dpl_app) }
{
    let mut command = top_command(alloc);
    for level in &LEVELS {
        command = with_level(alloc, command, *level)?;
    }
    Ok(command)
}
