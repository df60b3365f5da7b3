//! How a run ends.
ghost use Rattle.std.specs.Prelude.{◌≡◌, []};
ghost use Rattle.dpl_view.specs.Findings.{status_of};

use crate::finding::Finding;

/// How a run ended. The codes go from 0 in this order, as those of `dpl`.
#[derive(Clone, Copy, Debug, PartialEq, Eq)]
pub enum Status {
    /// The layer has no odd cycle of conflicts.
    Done,
    /// It has one.
    Conflict,
    /// The layout has a fault, and the line tells the first.
    Refused,
    /// The words are no command.
    Usage,
    /// A read failed; nothing was written.
    ReadFault,
    /// A write failed.
    WriteFault,
    /// Memory ran out; nothing was written.
    NoMemory,
}

impl Status {
    /// The code with which the program ends.
    pub fn code(self) -> u8 {
        self as u8
    }
}

/// With what a run ends that found this.
pub fn status_by(finding: &Finding) -> Status
    ensures { result ≡ status_of finding.now }
{
    match finding {
        Finding::Refused { .. } => Status::Refused,
        Finding::Cycles(found) if found.tangles.clashes.is_empty() => Status::Done,
        Finding::Cycles(_) => Status::Conflict,
    }
}
