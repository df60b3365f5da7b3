//! What is read: a file whole, or none.
ghost use Rattle.std.specs.Prelude.{◌≡◌, [], IfOk, IsErrOf, option_map};
ghost use Rattle.dpl_host.specs.Calls.{AreReadsOf, Logged};
ghost use Rattle.dpl_host.specs.Whole.{HasReadCause};
ghost use Rattle.dpl_run.specs.Program.{IsInput, IsSeen};
ghost use Rattle.dpl_run.specs.View.{output_view};

use crate::output::Output;
use dpl_host::{Host, ReadFault, read_all};
use std::alloc::Global;

/// The bytes of a file, or None where they are too many.
pub(crate) fn read_input<H: Host>(
    alloc: Global,
    host: &mut H,
    name: &str,
) -> Result<Option<Vec<u8>>, ReadFault>
    ensures read { IfOk result (λ r. IsInput (H.told host.old) name.now (option_map (λ v. v.items) r)) }
    ensures seen { IfOk result (λ r. IsSeen (H.told host.old) name.now (option_map (λ v. v.items) r)) }
    ensures cause { HasReadCause (H.read_faults host.old) (H.read_faults host.new) result }
    ensures not_large { IsErrOf result ReadFault.TooLarge → ⊥ }
    ensures same { H.told host.new ≡ H.told host.old }
    ensures others { H.write_faults host.new ≡ H.write_faults host.old }
    ensures calls { Logged (H.log host.old) (H.log host.new) (AreReadsOf name.now) }
{
    match read_all(alloc, host, name) {
        Ok(bytes) => Ok(Some(bytes)),
        Err(ReadFault::TooLarge) => Ok(None),
        Err(fault) => Err(fault),
    }
}

/// What was made of no file: none is read for it.
pub(crate) fn read_nothing<'a, H: Host>(
    host: &mut H,
    made: Output<'a>,
) -> Result<Output<'a>, ReadFault>
    ensures made { IfOk result (λ x. output_view x ≡ output_view made.entry) }
    ensures cause { HasReadCause (H.read_faults host.old) (H.read_faults host.new) result }
    ensures not_large { IsErrOf result ReadFault.TooLarge → ⊥ }
    ensures same { H.told host.new ≡ H.told host.old }
    ensures others { H.write_faults host.new ≡ H.write_faults host.old }
    ensures calls { Logged (H.log host.old) (H.log host.new) (λ calls. calls ≡ []) }
{
    Ok(made)
}
