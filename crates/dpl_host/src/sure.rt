//! A host whose calls never fail.
ghost use Rattle.std.specs.Prelude.{◌≡◌, ◌≤◌, ◌+◌, ◌-◌, ◌^◌, IfOk, IsOk, OnOk, [], length, take, unwrap_or};
ghost use Rattle.dpl_host.specs.Calls.{Append, Create, Logs, Read, Say};
ghost use Rattle.dpl_host.specs.Outside.{Changes, Gave, Gives, HasCause, IsThere, LeavesRest, Reads, Takes, with_file, with_more, with_said};
ghost use Rattle.std.specs.FinMap as map;
ghost use Rattle.dpl_host.specs.Memory.{files_of};
ghost use Rattle.dpl_host.specs.SureHost.{borrowed, counted, no_faults, unlogged, untold};

use crate::memory::copy;
use crate::names;
use crate::outside::{Failed, Host};
use std::collections::BTreeMap;

/// Reads files that it borrows, and counts the bytes that are written and said without keeping them. A name that isn't there reads as empty. It tells nothing.
#[derive(Drop)]
pub struct SureHost<'a> {
    files: &'a BTreeMap<String, Vec<u8>>,
    taken: u64,
    given: u64,
}

impl<'a> SureHost<'a> {
    /// A host that reads these files.
    pub fn new(files: &'a BTreeMap<String, Vec<u8>>) -> SureHost<'a>
        ensures files { borrowed result ≡ files_of files.entry.now.entries }
        ensures none { result.taken ≡ 0 }
        ensures none_given { result.given ≡ 0 }
    {
        SureHost {
            files,
            taken: 0,
            given: 0,
        }
    }

    /// How many bytes were written and said, up to the last value of a `u64`.
    pub fn taken(&self) -> u64
        ensures { result ≡ self.now.taken }
    {
        self.taken
    }

    /// Counts these bytes as taken, all of them, and gives how many they are.
    fn count(&mut self, piece: &[u8]) -> usize
        ensures all { result ≡ length piece.now }
        ensures counted { self.new.taken ≡ counted self.old.taken (length piece.now) }
        ensures files { borrowed self.new ≡ borrowed self.old }
        ensures given { self.new.given ≡ self.old.given }
    {
        self.taken = self.taken.saturating_add(piece.len() as u64);
        piece.len()
    }
}

impl<'a> Host for SureHost<'a> {
    ghost use Rattle.dpl_host.specs.SureHost.{no_faults, unlogged, untold};

    ghost told = { λ h. untold };

    ghost read_faults = { λ h. no_faults };

    ghost write_faults = { λ h. no_faults };

    ghost given = { λ h. h.given };

    ghost log = { λ h. unlogged };

    fn read(&mut self, name: &str, at: u64, into: &mut [u8]) -> Result<usize, Failed>
        ensures sure { IsOk result }
        ensures bound { IfOk result (λ n. n ≤ length into.new) }
        ensures bytes { Reads untold name.now at result into.new }
        ensures rest { LeavesRest result into.old into.new }
        ensures same { untold ≡ untold }
        ensures cause { HasCause no_faults no_faults result }
        ensures others { no_faults ≡ no_faults }
        ensures gives { IfOk result (λ n. Gives (unwrap_or (map.get (borrowed self.old) name.now) []) at n into.new) }
        ensures given { IfOk result (λ n. Gave self.old.given n self.new.given) }
        ensures exactly { IfOk result (λ n. self.new.given ≡ counted self.old.given n) }
        ensures files { borrowed self.new ≡ borrowed self.old }
        ensures count { self.new.taken ≡ self.old.taken }
        ensures logged { Logs unlogged (Read name.now) unlogged }
    {
        let file = match names::file(self.files, name) {
            Some(file) => file.as_slice(),
            None => &[],
        };
        let count = copy(file, at, usize::MAX, into);
        self.given = self.given.saturating_add(count as u64);
        Ok(count)
    }

    fn create(&mut self, name: &str) -> Result<(), Failed>
        ensures made { Changes result untold untold (λ _. with_file name.now []) }
        ensures cause { HasCause no_faults no_faults result }
        ensures others { no_faults ≡ no_faults }
        ensures sure { IsOk result }
        ensures files { borrowed self.new ≡ borrowed self.old }
        ensures given { self.new.given ≡ self.old.given }
        ensures count { self.new.taken ≡ self.old.taken }
        ensures logged { Logs unlogged (Create name.now) unlogged }
    {
        Ok(())
    }

    fn append(&mut self, name: &str, piece: &[u8]) -> Result<usize, Failed>
        ensures taken { IfOk result (Takes piece.now) }
        ensures there { OnOk result (IsThere untold name.now) }
        ensures added { Changes result untold untold (λ n. with_more name.now (take n piece.now)) }
        ensures cause { HasCause no_faults no_faults result }
        ensures others { no_faults ≡ no_faults }
        ensures all { IfOk result (λ n. n ≡ length piece.now) }
        ensures sure { IsOk result }
        ensures count { self.new.taken ≡ counted self.old.taken (length piece.now) }
        ensures files { borrowed self.new ≡ borrowed self.old }
        ensures given { self.new.given ≡ self.old.given }
        ensures logged { Logs unlogged (Append name.now) unlogged }
    {
        Ok(self.count(piece))
    }

    fn say(&mut self, piece: &[u8]) -> Result<usize, Failed>
        ensures taken { IfOk result (Takes piece.now) }
        ensures said { Changes result untold untold (λ n. with_said (take n piece.now)) }
        ensures cause { HasCause no_faults no_faults result }
        ensures others { no_faults ≡ no_faults }
        ensures all { IfOk result (λ n. n ≡ length piece.now) }
        ensures sure { IsOk result }
        ensures count { self.new.taken ≡ counted self.old.taken (length piece.now) }
        ensures files { borrowed self.new ≡ borrowed self.old }
        ensures given { self.new.given ≡ self.old.given }
        ensures logged { Logs unlogged Say unlogged }
    {
        Ok(self.count(piece))
    }
}
