//! All that a run writes and says, made before the first of it is written.
ghost use Rattle.std.specs.Prelude.{◌≡◌, OnErr, OnOk, option_map, string_bytes};
ghost use Rattle.dpl_host.specs.Calls.{Logged};
ghost use Rattle.dpl_host.specs.Outside.{HasCause};
ghost use Rattle.dpl_run.specs.Calls.{AreWritings, BeginWritings};
ghost use Rattle.dpl_run.specs.CallsMade.{names_of};
ghost use Rattle.dpl_run.specs.Outcome.{IsPartDone, carried_out, says};
ghost use Rattle.dpl_run.specs.View.{name_text, output_view};

use crate::status::Status;
use dpl_host::{Failed, Host, say_all, write_all};
use std::alloc::Global;

/// The name of a file to be written.
#[derive(Drop)]
pub(crate) enum FileName<'a> {
    /// A word of the command line.
    Given(&'a str),
    /// One that is made of a prefix and a layer.
    Made(String),
}

impl<'a> FileName<'a> {
    /// The name as a text.
    pub(crate) fn text(&self) -> &str
        ensures { result.now ≡ name_text self.now }
    {
        match self {
            FileName::Given(name) => name,
            FileName::Made(name) => name.as_str(),
        }
    }
}

/// A file to be written.
#[derive(Drop)]
pub(crate) struct Write<'a> {
    pub(crate) name: FileName<'a>,
    pub(crate) bytes: Vec<u8>,
}

/// All that a run writes and says, and how it ends then.
#[derive(Drop)]
pub(crate) struct Output<'a> {
    pub(crate) status: Status,
    pub(crate) writes: Vec<Write<'a>>,
    pub(crate) line: String,
}

/// Nothing is written, and a line is said.
pub(crate) fn said<'a>(alloc: Global, status: Status, line: String) -> Output<'a>
    ensures { output_view result ≡ says status (string_bytes line) }
{
    Output {
        status,
        writes: Vec::new(alloc),
        line,
    }
}

/// Writes the files in order, and says the text. It takes no memory itself; a host may, and its failure is then a write fault.
pub(crate) fn perform<H: Host>(host: &mut H, output: &Output) -> Result<(), Failed>
    ensures ok { OnOk result (H.told host.new ≡ option_map (carried_out (output_view output.now)) (H.told host.old)) }
    ensures err { OnErr result (IsPartDone (output_view output.now).writes (output_view output.now).line (H.told host.old) (H.told host.new)) }
    ensures cause { HasCause (H.write_faults host.old) (H.write_faults host.new) result }
    ensures others { H.read_faults host.new ≡ H.read_faults host.old }
    ensures calls { OnOk result (Logged (H.log host.old) (H.log host.new) (AreWritings (names_of (output_view output.now).writes))) }
    ensures begun { OnErr result (Logged (H.log host.old) (H.log host.new) (BeginWritings (names_of (output_view output.now).writes))) }
{
    for write in &output.writes {
        write_all(host, write.name.text(), write.bytes.as_slice())?;
    }
    say_all(host, output.line.as_bytes())
}
