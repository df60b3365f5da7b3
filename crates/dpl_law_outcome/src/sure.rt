//! Where no call of the host fails, no answer tells of one.
ghost use Rattle.std.specs.Prelude.{◌≡◌, ◌⊎◌};
ghost use Rattle.clap.specs.Walk.{texts};
ghost use Rattle.dpl_host.specs.SureHost.{untold};
ghost use Rattle.dpl_run.specs.Program.{IsOutcome};

use dpl_host::SureHost;
use dpl_pool::Gate;
use dpl_run::{Status, run};
use std::alloc::Global;
use std::sync::Wait;
use std::thread::Threads;

/// A run over a host whose calls never fail. It ends with what the definition gives, or where memory runs out: neither with a failed read nor with a failed write.
pub fn run_surely<'a, R: Threads + Wait + Sync, G: Gate + Sync>(
    rt: &R,
    alloc: Global,
    words: &'a [&'a str],
    host: &mut SureHost<'_>,
    gate: &G,
) -> Status
    ensures no_read_fault { result ≡ Status.ReadFault → ⊥ }
    ensures no_write_fault { result ≡ Status.WriteFault → ⊥ }
    ensures complete { (result ≡ Status.NoMemory) ⊎ IsOutcome (texts words.entry.now) result untold untold }
{
    run(rt, alloc, words, host, gate)
}
