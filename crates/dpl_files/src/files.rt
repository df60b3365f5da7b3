//! Real files and standard output.
ghost use Rattle.std.specs.Prelude.{◌≡◌, ◌≤◌, IfOk, MatchResult, OnErr, OnOk, [], length, take};
ghost use Rattle.std.specs.Io.{ReadsAtMost, WritesAtMost};
ghost use Rattle.dpl_host.specs.Calls.{Append, Create, Logs, Read, Say};
ghost use Rattle.dpl_host.specs.MemHost.{next_count};
ghost use Rattle.dpl_host.specs.Outside.{Changes, Gave, HasCause, IsThere, LeavesRest, Reads, Takes, with_file, with_more, with_said};
ghost use Rattle.dpl_host.specs.SureHost.{counted, unlogged, untold};

use crate::fault::Fault;
use dpl_host::{Failed, Host};
use std::fs::{File, OpenOptions};
use std::io;
use std::io::Write;
use std::os::unix::fs::FileExt;

/// How many bytes a read takes at most.
const CHUNK: usize = 8192;

/// How the line begins that a split of a layer without a square says.
const EMPTY: &[u8] = b"done features 0 ";

/// A file that stays open from call to call.
#[derive(Drop)]
struct Opened {
    name: String,
    file: File,
}

/// The files of the system and standard output. It tells neither: what it does to them is trusted. It keeps no list of its calls.
#[derive(Drop)]
pub struct FileHost<'a> {
    rt: &'a HostRuntime,
    words: &'a [&'a str],
    input: Option<Opened>,
    output: Option<Opened>,
    fault: Option<Fault<'a>>,
    is_empty: bool,
    read_faults: u64,
    write_faults: u64,
    given: u64,
}

impl<'a> FileHost<'a> {
    /// A host whose calls have not failed yet, and gave nothing. The words are those of the command line, among which are the names of its files.
    pub fn new(rt: &'a HostRuntime, words: &'a [&'a str]) -> FileHost<'a>
        ensures reads { result.read_faults ≡ 0 }
        ensures writes { result.write_faults ≡ 0 }
        ensures given { result.given ≡ 0 }
    {
        FileHost {
            rt,
            words,
            input: None,
            output: None,
            fault: None,
            is_empty: false,
            read_faults: 0,
            write_faults: 0,
            given: 0,
        }
    }

    /// How many reads failed, up to the last value of a `u64`.
    pub fn read_faults(&self) -> u64
        ensures { result ≡ self.now.read_faults }
    {
        self.read_faults
    }

    /// The last call that failed.
    pub fn fault(&self) -> Option<Fault<'a>> {
        self.fault
    }

    /// Whether it was said that a layer without a square was split.
    pub fn is_empty(&self) -> bool {
        self.is_empty
    }

    /// How many of these bytes a file, or standard output, took. An error is a write fault, as a full disk; so is a write that takes none of some bytes.
    fn taken(
        &mut self,
        place: &'a str,
        written: io::Result<usize>,
        piece: &[u8],
    ) -> Result<usize, Failed>
        requires { WritesAtMost written piece.now }
        ensures taken { IfOk result (Takes piece.now) }
        ensures cause { HasCause self.old.write_faults self.new.write_faults result }
        ensures others { self.new.read_faults ≡ self.old.read_faults }
        ensures raises { OnErr result (self.new.write_faults ≡ next_count self.old.write_faults) }
        ensures keeps { OnOk result (self.new.write_faults ≡ self.old.write_faults) }
        ensures given { self.new.given ≡ self.old.given }
    {
        match written {
            Ok(count) if count > 0 || piece.is_empty() => Ok(count),
            written => {
                let none = io::Error::from(io::ErrorKind::WriteZero);
                let cause = written.err().unwrap_or(none);
                self.fault = Some(Fault { place, cause });
                self.write_faults = self.write_faults.saturating_add(1);
                Err(Failed)
            }
        }
    }
}

impl<'a> Host for FileHost<'a> {
    ghost use Rattle.dpl_host.specs.SureHost.{unlogged, untold};

    ghost told = { λ h. untold };

    ghost read_faults = { λ h. h.read_faults };

    ghost write_faults = { λ h. h.write_faults };

    ghost given = { λ h. h.given };

    ghost log = { λ h. unlogged };

    fn read(&mut self, name: &str, at: u64, into: &mut [u8]) -> Result<usize, Failed>
        ensures bound { IfOk result (λ n. n ≤ length into.new) }
        ensures bytes { Reads untold name.now at result into.new }
        ensures rest { LeavesRest result into.old into.new }
        ensures same { untold ≡ untold }
        ensures cause { HasCause self.old.read_faults self.new.read_faults result }
        ensures others { self.new.write_faults ≡ self.old.write_faults }
        ensures raises { OnErr result (self.new.read_faults ≡ next_count self.old.read_faults) }
        ensures keeps { OnOk result (self.new.read_faults ≡ self.old.read_faults) }
        ensures given { IfOk result (λ n. Gave self.old.given n self.new.given) }
        ensures exactly { MatchResult result (λ n. self.new.given ≡ counted self.old.given n) (λ _. self.new.given ≡ self.old.given) }
        ensures logged { Logs unlogged (Read name.now) unlogged }
    {
        let mut chunk = [0u8; CHUNK];
        let room = into.len().min(CHUNK);
        match read_from(self.rt, &mut self.input, name, at, &mut chunk[..room]) {
            Ok(count) => {
                into[..count].copy_from_slice(&chunk[..count]);
                self.given = self.given.saturating_add(count as u64);
                Ok(count)
            }
            Err(cause) => {
                let place = word_of(self.words, name);
                self.fault = Some(Fault { place, cause });
                self.read_faults = self.read_faults.saturating_add(1);
                Err(Failed)
            }
        }
    }

    fn create(&mut self, name: &str) -> Result<(), Failed>
        ensures made { Changes result untold untold (λ _. with_file name.now []) }
        ensures cause { HasCause self.old.write_faults self.new.write_faults result }
        ensures others { self.new.read_faults ≡ self.old.read_faults }
        ensures raises { OnErr result (self.new.write_faults ≡ next_count self.old.write_faults) }
        ensures keeps { OnOk result (self.new.write_faults ≡ self.old.write_faults) }
        ensures given { self.new.given ≡ self.old.given }
        ensures logged { Logs unlogged (Create name.now) unlogged }
    {
        match create_anew(self.rt, &mut self.output, name) {
            Ok(()) => Ok(()),
            Err(cause) => {
                let place = word_of(self.words, name);
                self.fault = Some(Fault { place, cause });
                self.write_faults = self.write_faults.saturating_add(1);
                Err(Failed)
            }
        }
    }

    fn append(&mut self, name: &str, piece: &[u8]) -> Result<usize, Failed>
        ensures taken { IfOk result (Takes piece.now) }
        ensures there { OnOk result (IsThere untold name.now) }
        ensures added { Changes result untold untold (λ n. with_more name.now (take n piece.now)) }
        ensures cause { HasCause self.old.write_faults self.new.write_faults result }
        ensures others { self.new.read_faults ≡ self.old.read_faults }
        ensures raises { OnErr result (self.new.write_faults ≡ next_count self.old.write_faults) }
        ensures keeps { OnOk result (self.new.write_faults ≡ self.old.write_faults) }
        ensures given { self.new.given ≡ self.old.given }
        ensures logged { Logs unlogged (Append name.now) unlogged }
    {
        let written = append_to(self.rt, &mut self.output, name, piece);
        self.taken(word_of(self.words, name), written, piece)
    }

    fn say(&mut self, piece: &[u8]) -> Result<usize, Failed>
        ensures taken { IfOk result (Takes piece.now) }
        ensures said { Changes result untold untold (λ n. with_said (take n piece.now)) }
        ensures cause { HasCause self.old.write_faults self.new.write_faults result }
        ensures others { self.new.read_faults ≡ self.old.read_faults }
        ensures raises { OnErr result (self.new.write_faults ≡ next_count self.old.write_faults) }
        ensures keeps { OnOk result (self.new.write_faults ≡ self.old.write_faults) }
        ensures given { self.new.given ≡ self.old.given }
        ensures logged { Logs unlogged Say unlogged }
    {
        self.is_empty = self.is_empty || piece.starts_with(EMPTY);
        let written = io::writer(self.rt).write(piece);
        self.taken("standard output", written, piece)
    }
}

/// The word that is a file's name, or else one behind which the name goes on with a dot, as behind the prefix of a batch. It is lent, so it takes no memory where memory has run out.
fn word_of<'a>(words: &'a [&'a str], name: &str) -> &'a str {
    for word in words {
        if *word == name {
            return word;
        }
    }
    for word in words {
        if is_prefix(word, name) {
            return word;
        }
    }
    "a file"
}

/// Whether the name goes on behind the word with a dot.
fn is_prefix(word: &str, name: &str) -> bool {
    match name.strip_prefix(word) {
        Some(rest) => rest.starts_with('.'),
        None => false,
    }
}

/// Reads bytes of a file from a place on. The file is opened, unless it is the one that is open already.
fn read_from(
    rt: &HostRuntime,
    input: &mut Option<Opened>,
    name: &str,
    at: u64,
    into: &mut [u8],
) -> io::Result<usize>
    ensures { ReadsAtMost result into.new }
{
    if let Some(open) = input {
        if open.name.as_str() == name {
            return open.file.read_at(into, at);
        }
    }
    let kept = String::from_str(rt.alloc(), name)?;
    let file = File::open(rt, name)?;
    let count = file.read_at(into, at)?;
    *input = Some(Opened { name: kept, file });
    Ok(count)
}

/// Makes a file empty, and keeps it open. Its name is kept first: where there is no memory for it, the file stays as it is.
fn create_anew(rt: &HostRuntime, output: &mut Option<Opened>, name: &str) -> io::Result<()> {
    let kept = String::from_str(rt.alloc(), name)?;
    let file = File::create(rt, name)?;
    *output = Some(Opened { name: kept, file });
    Ok(())
}

/// Puts bytes behind a file. The file is opened, unless it is the one that is open already.
fn append_to(
    rt: &HostRuntime,
    output: &mut Option<Opened>,
    name: &str,
    piece: &[u8],
) -> io::Result<usize>
    ensures { WritesAtMost result piece.now }
{
    if let Some(open) = output {
        if open.name.as_str() == name {
            return open.file.write(piece);
        }
    }
    let kept = String::from_str(rt.alloc(), name)?;
    let mut file = OpenOptions::new().append(true).open(rt, name)?;
    let count = file.write(piece)?;
    *output = Some(Opened { name: kept, file });
    Ok(count)
}
