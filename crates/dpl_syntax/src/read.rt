//! Reading a library.

ghost use Rattle.std.specs.Prelude.{◌≤◌, length, IfOk, IfErr};
ghost use Rattle.dpl_spec_format.specs.Faults.{Fault};
ghost use Rattle.dpl_spec_format.specs.Tree.{Library as Tree};
ghost use Rattle.dpl_spec_format.specs.Layout.{Holds, IsFirstFault};
ghost use Rattle.dpl_syntax.specs.Outcome.{Refuses, Gives, Refused};

use crate::fault::SyntaxFault;
use crate::library::Library;
use crate::reader::Reader;
use dpl_records::kinds;
use std::alloc::Global;

/// The library that the bytes hold. Bytes behind ENDLIB are ignored. A fault is the first one of the file: at the first record
/// that is no whole and well-formed one, that the grammar doesn't have there, an XY of the wrong number of points, an empty
/// name, or the name of an earlier structure.
pub fn read_library(alloc: Global, bytes: &[u8]) -> Result<Library<'_>, SyntaxFault>
    requires { length bytes.now ≤ 268435456 }
    // What is read is held by the bytes.
    ensures library { IfOk result (λ lib. Holds bytes.now lib) }
    // What is refused has that first fault.
    ensures fault { IfErr result (λ e. Refuses (IsFirstFault bytes.now) e) }
    // What the bytes hold is read, unless memory runs out.
    ensures held { (lib : Tree) → Holds bytes.now lib → Gives result lib }
    // What has a first fault is refused for it, unless memory runs out.
    ensures refused { (f : Fault) → IsFirstFault bytes.now f → Refused result f }
{
    library(alloc, bytes)
}

fn library(alloc: Global, bytes: &[u8]) -> Result<Library<'_>, SyntaxFault>
    requires { length bytes.now ≤ 268435456 }
    ensures library { IfOk result (λ lib. Holds bytes.now lib) }
    ensures fault { IfErr result (λ e. Refuses (IsFirstFault bytes.now) e) }
{
    let mut reader = Reader { bytes, at: 0 };
    let header = reader.take_whole(kinds::HEADER)?;
    let bgnlib = reader.take_part(kinds::BGNLIB)?;
    let libname = reader.take_part(kinds::LIBNAME)?;
    let units = reader.take_part(kinds::UNITS)?;
    let structures = reader.structures(alloc)?;
    Ok(Library {
        header,
        bgnlib,
        libname,
        units,
        structures,
    })
}
