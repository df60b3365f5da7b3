//! A host in memory, which fails where it is told to.
ghost use Rattle.std.specs.Prelude.{◌≡◌, ◌<◌, ◌≤◌, ◌||◌, ◌⊎◌, ◌^◌, ◌-◌, true, false, not, is_some, is_err, length, min, take, drop, Some, None, IfOk, IfSome, IsErr, MatchResult, OnErr, OnOk, map as list_map, option_map, []};
ghost use Rattle.std.specs.FinMap as map;
ghost use Rattle.dpl_host.specs.Calls.{Append, Create, Logs, Read, Say};
ghost use Rattle.dpl_host.specs.Outside.{Changes, Gave, Gives, HasCause, IsThere, LeavesRest, Reads, Rose, Takes, file_of, with_file, with_more, with_said};
ghost use Rattle.dpl_host.specs.Memory.{files_of};
ghost use Rattle.dpl_host.specs.Kept.{call_view};
ghost use Rattle.dpl_host.specs.SureHost.{counted};
ghost use Rattle.dpl_host.specs.MemHost.{append_is_listed, create_is_listed, lists, log_of, next_count, plan_of, outside_of, read_is_listed, refusals, say_is_listed};

use crate::calls::{Call, Calls};
use crate::names;
use crate::outside::{Failed, Host};
use crate::stride::Stride;
use std::alloc::Global;
use std::collections::BTreeMap;

/// What a call of a host asks for.
#[derive(Clone, Copy, Debug, PartialEq, Eq)]
pub enum Kind {
    Read,
    Create,
    Append,
    Say,
}

/// A call that is to fail: its kind, and its number among those of its kind, from 0.
pub type Failing = (Kind, u64);

/// A host whose files are in memory. It tells them and what was said, fails where `failing` lists a call, counts the calls of each kind, and keeps a list of its calls until there is no memory for one.
#[derive(Drop)]
pub struct MemHost {
    alloc: Global,
    files: BTreeMap<String, Vec<u8>>,
    said: Vec<u8>,
    step: Stride,
    failing: Vec<Failing>,
    reads: u64,
    creates: u64,
    appends: u64,
    says: u64,
    refused: u64,
    read_faults: u64,
    write_faults: u64,
    given: u64,
    calls: Calls,
}

/// Whether the call of this kind and number is to fail.
fn is_listed(failing: &[Failing], kind: Kind, number: u64) -> bool
    ensures { result ≡ lists failing.now kind number }
{
    failing.iter().any(|f| f.0 == kind && f.1 == number)
}

impl MemHost {
    /// A host with these files, of which a call gives or takes `step` bytes at most.
    pub fn new(
        alloc: Global,
        files: BTreeMap<String, Vec<u8>>,
        step: usize,
        failing: Vec<Failing>,
    ) -> MemHost
        requires { 0 < step }
        ensures files { outside_of result ≡ record { files = files_of files.entries; said = [] } }
        ensures counts { refusals result ≡ 0 }
        ensures no_read_fault { result.read_faults ≡ 0 }
        ensures no_write_fault { result.write_faults ≡ 0 }
        ensures none_given { result.given ≡ 0 }
        ensures none_logged { log_of result ≡ Some [] }
        ensures plan { plan_of result ≡ record { step = step; failing = failing.items; reads = 0; creates = 0; appends = 0; says = 0 } }
    {
        MemHost {
            alloc,
            files,
            said: Vec::new(alloc),
            step: Stride::new(step),
            failing,
            reads: 0,
            creates: 0,
            appends: 0,
            says: 0,
            refused: 0,
            read_faults: 0,
            write_faults: 0,
            given: 0,
            calls: Calls::new(alloc),
        }
    }

    /// The bytes of the file of a name, where it is there.
    pub fn file(&self, name: &str) -> Option<&[u8]>
        ensures { option_map (λ f. f.now) result ≡ file_of (outside_of self.now) name.now }
    {
        Some(names::file(&self.files, name)?.as_slice())
    }

    /// All bytes that were said so far.
    pub fn said(&self) -> &[u8]
        ensures { result.now ≡ (outside_of self.now).said }
    {
        self.said.as_slice()
    }

    /// The calls so far, in order, unless there was no memory for one of them.
    pub fn calls(&self) -> Option<&[Call]>
        ensures { option_map (λ list. list_map call_view list.now) result ≡ log_of self.now }
    {
        self.calls.list()
    }

    /// How many calls found no memory.
    pub fn refused(&self) -> u64
        ensures { result ≡ refusals self.now }
    {
        self.refused
    }
}

impl Host for MemHost {
    ghost use Rattle.std.specs.Prelude.{Some};
    ghost use Rattle.dpl_host.specs.MemHost.{log_of, outside_of};

    ghost told = { λ h. Some (outside_of h) };

    ghost read_faults = { λ h. h.read_faults };

    ghost write_faults = { λ h. h.write_faults };

    ghost given = { λ h. h.given };

    ghost log = { λ h. log_of h };

    fn read(&mut self, name: &str, at: u64, into: &mut [u8]) -> Result<usize, Failed>
        ensures bound { IfOk result (λ n. n ≤ length into.new) }
        ensures bytes { Reads (Some (outside_of self.old)) name.now at result into.new }
        ensures rest { LeavesRest result into.old into.new }
        ensures same { outside_of self.new ≡ outside_of self.old }
        ensures cause { HasCause self.old.read_faults self.new.read_faults result }
        ensures others { self.new.write_faults ≡ self.old.write_faults }
        ensures exact { is_err result ≡ (read_is_listed self.old || not (is_some (file_of (outside_of self.old) name.now))) }
        ensures most { IfOk result (λ n. IfSome (file_of (outside_of self.old) name.now) (λ file. n ≡ min (min (length file - at) (plan_of self.old).step) (length into.new))) }
        ensures plan { plan_of self.new ≡ record (plan_of self.old) { reads = next_count (plan_of self.old).reads } }
        ensures refused { refusals self.new ≡ refusals self.old }
        ensures given { IfOk result (λ n. Gave self.old.given n self.new.given) }
        ensures exactly { MatchResult result (λ n. self.new.given ≡ counted self.old.given n) (λ _. self.new.given ≡ self.old.given) }
        ensures raises { OnErr result (self.new.read_faults ≡ next_count self.old.read_faults) }
        ensures keeps { OnOk result (self.new.read_faults ≡ self.old.read_faults) }
        ensures logged { Logs (log_of self.old) (Read name.now) (log_of self.new) }
    {
        self.calls.note(Kind::Read, name);
        let listed = is_listed(self.failing.as_slice(), Kind::Read, self.reads);
        self.reads = self.reads.saturating_add(1);
        match names::file(&self.files, name) {
            Some(file) if !listed => {
                let count = copy(file.as_slice(), at, self.step.bytes(), into);
                self.given = self.given.saturating_add(count as u64);
                Ok(count)
            }
            _ => {
                self.read_faults = self.read_faults.saturating_add(1);
                Err(Failed)
            }
        }
    }

    fn create(&mut self, name: &str) -> Result<(), Failed>
        ensures made { Changes result (Some (outside_of self.old)) (Some (outside_of self.new)) (λ _. with_file name.now []) }
        ensures cause { HasCause self.old.write_faults self.new.write_faults result }
        ensures others { self.new.read_faults ≡ self.old.read_faults }
        ensures fails { OnErr result ((create_is_listed self.old ≡ true) ⊎ Rose (refusals self.old) (refusals self.new)) }
        ensures works { OnOk result ((create_is_listed self.old ≡ false) × (refusals self.new ≡ refusals self.old)) }
        ensures plan { plan_of self.new ≡ record (plan_of self.old) { creates = next_count (plan_of self.old).creates } }
        ensures given { self.new.given ≡ self.old.given }
        ensures raises { OnErr result (self.new.write_faults ≡ next_count self.old.write_faults) }
        ensures keeps { OnOk result (self.new.write_faults ≡ self.old.write_faults) }
        ensures spared { create_is_listed self.old ≡ true → refusals self.new ≡ refusals self.old }
        ensures counted { OnErr result ((refusals self.new ≡ refusals self.old) ⊎ (refusals self.new ≡ next_count (refusals self.old))) }
        ensures logged { Logs (log_of self.old) (Create name.now) (log_of self.new) }
    {
        self.calls.note(Kind::Create, name);
        let listed = is_listed(self.failing.as_slice(), Kind::Create, self.creates);
        self.creates = self.creates.saturating_add(1);
        if !listed {
            match names::put_empty(self.alloc, &mut self.files, name) {
                Ok(()) => return Ok(()),
                Err(_) => self.refused = self.refused.saturating_add(1),
            }
        }
        self.write_faults = self.write_faults.saturating_add(1);
        Err(Failed)
    }

    fn append(&mut self, name: &str, piece: &[u8]) -> Result<usize, Failed>
        ensures taken { IfOk result (Takes piece.now) }
        ensures there { OnOk result (IsThere (Some (outside_of self.old)) name.now) }
        ensures added { Changes result (Some (outside_of self.old)) (Some (outside_of self.new)) (λ n. with_more name.now (take n piece.now)) }
        ensures cause { HasCause self.old.write_faults self.new.write_faults result }
        ensures others { self.new.read_faults ≡ self.old.read_faults }
        ensures fails { OnErr result ((append_is_listed self.old ≡ true) ⊎ (file_of (outside_of self.old) name.now ≡ None) ⊎ Rose (refusals self.old) (refusals self.new)) }
        ensures works { OnOk result ((append_is_listed self.old ≡ false) × (refusals self.new ≡ refusals self.old)) }
        ensures most { IfOk result (λ n. n ≡ min (length piece.now) (plan_of self.old).step) }
        ensures plan { plan_of self.new ≡ record (plan_of self.old) { appends = next_count (plan_of self.old).appends } }
        ensures given { self.new.given ≡ self.old.given }
        ensures raises { OnErr result (self.new.write_faults ≡ next_count self.old.write_faults) }
        ensures keeps { OnOk result (self.new.write_faults ≡ self.old.write_faults) }
        ensures spared { append_is_listed self.old ≡ true → refusals self.new ≡ refusals self.old }
        ensures absent { file_of (outside_of self.old) name.now ≡ None → refusals self.new ≡ refusals self.old }
        ensures counted { OnErr result ((refusals self.new ≡ refusals self.old) ⊎ (refusals self.new ≡ next_count (refusals self.old))) }
        ensures logged { Logs (log_of self.old) (Append name.now) (log_of self.new) }
    {
        self.calls.note(Kind::Append, name);
        let listed = is_listed(self.failing.as_slice(), Kind::Append, self.appends);
        self.appends = self.appends.saturating_add(1);
        let count = piece.len().min(self.step.bytes());
        if !listed {
            match names::put_behind(&mut self.files, name, &piece[..count]) {
                Ok(true) => return Ok(count),
                Ok(false) => {}
                Err(_) => self.refused = self.refused.saturating_add(1),
            }
        }
        self.write_faults = self.write_faults.saturating_add(1);
        Err(Failed)
    }

    fn say(&mut self, piece: &[u8]) -> Result<usize, Failed>
        ensures taken { IfOk result (Takes piece.now) }
        ensures said { Changes result (Some (outside_of self.old)) (Some (outside_of self.new)) (λ n. with_said (take n piece.now)) }
        ensures cause { HasCause self.old.write_faults self.new.write_faults result }
        ensures others { self.new.read_faults ≡ self.old.read_faults }
        ensures fails { OnErr result ((say_is_listed self.old ≡ true) ⊎ Rose (refusals self.old) (refusals self.new)) }
        ensures works { OnOk result ((say_is_listed self.old ≡ false) × (refusals self.new ≡ refusals self.old)) }
        ensures most { IfOk result (λ n. n ≡ min (length piece.now) (plan_of self.old).step) }
        ensures plan { plan_of self.new ≡ record (plan_of self.old) { says = next_count (plan_of self.old).says } }
        ensures given { self.new.given ≡ self.old.given }
        ensures raises { OnErr result (self.new.write_faults ≡ next_count self.old.write_faults) }
        ensures keeps { OnOk result (self.new.write_faults ≡ self.old.write_faults) }
        ensures spared { say_is_listed self.old ≡ true → refusals self.new ≡ refusals self.old }
        ensures counted { OnErr result ((refusals self.new ≡ refusals self.old) ⊎ (refusals self.new ≡ next_count (refusals self.old))) }
        ensures logged { Logs (log_of self.old) Say (log_of self.new) }
    {
        self.calls.note(Kind::Say, "");
        let listed = is_listed(self.failing.as_slice(), Kind::Say, self.says);
        self.says = self.says.saturating_add(1);
        let count = piece.len().min(self.step.bytes());
        if !listed {
            match self.said.extend_from_slice(&piece[..count]) {
                Ok(()) => return Ok(count),
                Err(_) => self.refused = self.refused.saturating_add(1),
            }
        }
        self.write_faults = self.write_faults.saturating_add(1);
        Err(Failed)
    }
}

/// Copies bytes of a file from a place on, `step` at most, and says how many.
pub(crate) fn copy(file: &[u8], at: u64, step: usize, into: &mut [u8]) -> usize
    requires { 0 < step }
    ensures bound { result ≤ length into.new }
    ensures most { result ≡ min (min (length file.now - at) step) (length into.new) }
    ensures gives { Gives file.now at result into.new }
    ensures rest { drop result into.new ≡ drop result into.old }
{
    let left = match usize::try_from(at) {
        Ok(at) if at < file.len() => &file[at..],
        _ => &[],
    };
    let count = left.len().min(step).min(into.len());
    into[..count].copy_from_slice(&left[..count]);
    count
}
