//! Files in memory, by their names.
ghost use Rattle.std.specs.Prelude.{◌≡◌, ◌++◌, [], Some, None, IfOk, OnErr, OnOk, MatchBool, option_map};
ghost use Rattle.std.specs.FinMap as map;
ghost use Rattle.dpl_host.specs.Memory.{files_of};

use std::alloc::{AllocError, Global};
use std::collections::BTreeMap;

/// The bytes of the file of a name, where it is there.
pub(crate) fn file<'a>(files: &'a BTreeMap<String, Vec<u8>>, name: &str) -> Option<&'a Vec<u8>>
    ensures { option_map (λ v. v.now.items) result ≡ map.get (files_of files.now.entries) name.now }
{
    files.get(name)
}

/// Puts an empty file under a name.
pub(crate) fn put_empty(
    alloc: Global,
    files: &mut BTreeMap<String, Vec<u8>>,
    name: &str,
) -> Result<(), AllocError>
    ensures ok { OnOk result (files_of files.new.entries ≡ map.insert (files_of files.old.entries) name.now []) }
    ensures err { OnErr result (files_of files.new.entries ≡ files_of files.old.entries) }
{
    let key = String::from_str(alloc, name)?;
    files.insert(key, Vec::new(alloc))?;
    Ok(())
}

/// Puts bytes behind the file of a name, and says whether it is there.
pub(crate) fn put_behind(
    files: &mut BTreeMap<String, Vec<u8>>,
    name: &str,
    piece: &[u8],
) -> Result<bool, AllocError>
    ensures ok { IfOk result (λ there. MatchBool there
        ((old : _) × (map.get (files_of files.old.entries) name.now ≡ Some old)
        × (files_of files.new.entries ≡ map.insert (files_of files.old.entries) name.now (old ++ piece.now)))
        ((map.get (files_of files.old.entries) name.now ≡ None) × (files_of files.new.entries ≡ files_of files.old.entries))) }
    ensures err { OnErr result (files_of files.new.entries ≡ files_of files.old.entries) }
    ensures there { OnErr result (map.get (files_of files.old.entries) name.now ≡ None → ⊥) }
{
    match files.get_mut(name) {
        Some(bytes) => {
            bytes.extend_from_slice(piece)?;
            Ok(true)
        }
        None => Ok(false),
    }
}
