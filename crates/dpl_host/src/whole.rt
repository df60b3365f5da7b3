//! Whole files, and whole texts.
ghost use Rattle.std.specs.Prelude.{◌≡◌, ◌<◌, ◌≤◌, ◌+◌, ℕ, List, Some, IfOk, IfSome, IsErrOf, OnErr, OnOk, length, option_map};
ghost use Rattle.dpl_host.specs.Calls.{AreReadsOf, AreSays, IsWritingOf, Logged};
ghost use Rattle.dpl_host.specs.Outside.{Gave, HasCause, IsPartSaid, IsPartWritten, file_of, with_file, with_said};
ghost use Rattle.dpl_host.specs.Whole.{HasReadCause};
ghost use Rattle.dpl_host.specs.declared.whole.ReadFault.TheVariants.{NoMemory as MemoryFault, Failed as ReadFailed};

use crate::outside::{Failed, Host};
use std::alloc::{AllocError, Global};

/// The most bytes that a file may have to be read.
pub const MAX_BYTES: usize = 268_435_456;

/// How many bytes a read asks for.
const CHUNK: usize = 8192;

/// Why a file isn't read.
#[derive(Clone, Copy, Debug, PartialEq, Eq)]
pub enum ReadFault {
    NoMemory,
    Failed,
    TooLarge,
}

impl From<AllocError> for ReadFault {
    ghost from_gives = { λ _ e. e ≡ MemoryFault };

    fn from(_: AllocError) -> Self {
        ReadFault::NoMemory
    }
}

impl From<Failed> for ReadFault {
    ghost from_gives = { λ _ e. e ≡ ReadFailed };

    fn from(_: Failed) -> Self {
        ReadFault::Failed
    }
}

/// Reads a whole file.
pub fn read_all<H: Host>(alloc: Global, host: &mut H, name: &str) -> Result<Vec<u8>, ReadFault>
    ensures bytes { IfOk result (λ v. IfSome (H.told host.old) (λ o. file_of o name.now ≡ Some v.items)) }
    ensures size { IfOk result (λ v. length v.items ≤ MAX_BYTES) }
    ensures cause { HasReadCause (H.read_faults host.old) (H.read_faults host.new) result }
    ensures others { H.write_faults host.new ≡ H.write_faults host.old }
    ensures large { IsErrOf result ReadFault.TooLarge → IfSome (H.told host.old) (λ o. (file : List ℕ) × (file_of o name.now ≡ Some file) × (MAX_BYTES < length file)) }
    ensures same { H.told host.new ≡ H.told host.old }
    // Told or not: all that it answers was given, and it is too large only where a byte past the limit was.
    ensures given { IfOk result (λ v. Gave (H.given host.old) (length v.items) (H.given host.new)) }
    ensures past { IsErrOf result ReadFault.TooLarge → Gave (H.given host.old) (MAX_BYTES + 1) (H.given host.new) }
    // It calls for nothing but reads of this file.
    ensures logged { Logged (H.log host.old) (H.log host.new) (AreReadsOf name.now) }
{
    let mut chunk = [0u8; CHUNK];
    let mut bytes = Vec::new(alloc);
    while bytes.len() <= MAX_BYTES {
        let count = host.read(name, bytes.len() as u64, &mut chunk)?;
        if count == 0 {
            return Ok(bytes);
        }
        bytes.extend_from_slice(&chunk[..count])?;
    }
    Err(ReadFault::TooLarge)
}

/// Makes a file and writes these bytes into it.
pub fn write_all<H: Host>(host: &mut H, name: &str, bytes: &[u8]) -> Result<(), Failed>
    ensures ok { OnOk result (H.told host.new ≡ option_map (with_file name.now bytes.now) (H.told host.old)) }
    ensures err { OnErr result (IsPartWritten name.now bytes.now (H.told host.old) (H.told host.new)) }
    ensures cause { HasCause (H.write_faults host.old) (H.write_faults host.new) result }
    ensures others { H.read_faults host.new ≡ H.read_faults host.old }
    // The file is created once, and then appended to.
    ensures logged { Logged (H.log host.old) (H.log host.new) (IsWritingOf name.now) }
{
    host.create(name)?;
    let mut done = 0;
    while done < bytes.len() {
        done += host.append(name, &bytes[done..])?;
    }
    Ok(())
}

/// Says all of a text.
pub fn say_all<H: Host>(host: &mut H, bytes: &[u8]) -> Result<(), Failed>
    ensures ok { OnOk result (H.told host.new ≡ option_map (with_said bytes.now) (H.told host.old)) }
    ensures err { OnErr result (IsPartSaid bytes.now (H.told host.old) (H.told host.new)) }
    ensures cause { HasCause (H.write_faults host.old) (H.write_faults host.new) result }
    ensures others { H.read_faults host.new ≡ H.read_faults host.old }
    ensures logged { Logged (H.log host.old) (H.log host.new) AreSays }
{
    let mut done = 0;
    while done < bytes.len() {
        done += host.say(&bytes[done..])?;
    }
    Ok(())
}
