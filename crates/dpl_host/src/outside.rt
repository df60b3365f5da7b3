//! What the program asks of its outside.
ghost use Rattle.std.specs.Prelude.{◌≡◌, ◌≤◌, ℕ, List, Option, IfOk, OnOk, length, take, []};
ghost use Rattle.dpl_host.specs.Calls.{Append, Call, Create, Logs, Read, Say};
ghost use Rattle.dpl_host.specs.Outside.{Changes, Gave, HasCause, IsThere, LeavesRest, Outside, Reads, Takes, with_file, with_more, with_said};

/// The failure of a call of a host, which says no more.
#[derive(Clone, Copy, Debug, PartialEq, Eq)]
pub struct Failed;

/// Files by their names, and a place where text is said.
pub trait Host {
    /// The files and what was said, where it tells them.
    ghost told: { Self → Option Outside };

    /// How many reads failed.
    ghost read_faults: { Self → ℕ };

    /// How many of the other calls failed.
    ghost write_faults: { Self → ℕ };

    /// How many bytes its reads gave, up to the last value of a `u64`.
    ghost given: { Self → ℕ };

    /// The calls that it took so far, in order, those that failed too, where it keeps them.
    ghost log: { Self → Option (List Call) };

    /// Reads bytes of a file from a place on into the start of `into`, whose rest stays. It reads none only at the end of the file, or into no room.
    fn read(&mut self, name: &str, at: u64, into: &mut [u8]) -> Result<usize, Failed>
        ensures bound { IfOk result (λ n. n ≤ length into.new) }
        ensures bytes { Reads (told self.old) name.now at result into.new }
        ensures rest { LeavesRest result into.old into.new }
        ensures same { told self.new ≡ told self.old }
        ensures cause { HasCause (read_faults self.old) (read_faults self.new) result }
        ensures others { write_faults self.new ≡ write_faults self.old }
        ensures given { IfOk result (λ n. Gave (given self.old) n (given self.new)) }
        ensures logged { Logs (log self.old) (Read name.now) (log self.new) };

    /// Makes a file empty, whether it was there or not.
    fn create(&mut self, name: &str) -> Result<(), Failed>
        ensures made { Changes result (told self.old) (told self.new) (λ _. with_file name.now []) }
        ensures cause { HasCause (write_faults self.old) (write_faults self.new) result }
        ensures others { read_faults self.new ≡ read_faults self.old }
        ensures logged { Logs (log self.old) (Create name.now) (log self.new) };

    /// Appends a prefix of these bytes to a file, and gives its length.
    fn append(&mut self, name: &str, piece: &[u8]) -> Result<usize, Failed>
        ensures taken { IfOk result (Takes piece.now) }
        ensures there { OnOk result (IsThere (told self.old) name.now) }
        ensures added { Changes result (told self.old) (told self.new) (λ n. with_more name.now (take n piece.now)) }
        ensures cause { HasCause (write_faults self.old) (write_faults self.new) result }
        ensures others { read_faults self.new ≡ read_faults self.old }
        ensures logged { Logs (log self.old) (Append name.now) (log self.new) };

    /// Says a prefix of these bytes, and gives its length.
    fn say(&mut self, piece: &[u8]) -> Result<usize, Failed>
        ensures taken { IfOk result (Takes piece.now) }
        ensures said { Changes result (told self.old) (told self.new) (λ n. with_said (take n piece.now)) }
        ensures cause { HasCause (write_faults self.old) (write_faults self.new) result }
        ensures others { read_faults self.new ≡ read_faults self.old }
        ensures logged { Logs (log self.old) Say (log self.new) };
}
