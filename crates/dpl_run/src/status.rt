//! How a run ends.
ghost use Rattle.std.specs.Prelude.{◌≡◌};
ghost use Rattle.dpl_run.specs.Outcome.{code_of};

/// How a run ended. The codes go from 0 in this order.
#[derive(Clone, Copy, Debug, PartialEq, Eq)]
pub enum Status {
    /// All that was asked for was done; of `check`, nothing is broken.
    Done,
    /// The conflict graph of the layer has an odd cycle.
    Conflict,
    /// A file has a fault, and the line tells the first.
    Refused,
    /// The words are no command, and the usage was said.
    Usage,
    /// A read failed; nothing was written.
    ReadFault,
    /// A write failed; what came before it is written.
    WriteFault,
    /// Memory ran out, and no read or write failed; nothing was written.
    NoMemory,
    /// Of what `check` looks at something is broken, and the line tells what.
    CheckNo,
}

impl Status {
    /// The code with which the program ends.
    pub fn code(self) -> u8
        ensures { result ≡ code_of self }
    {
        self as u8
    }
}
