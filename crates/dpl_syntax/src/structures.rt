//! Reading structures.

ghost use Rattle.std.specs.Prelude.{◌≡◌, ◌<◌, ◌≤◌, ◌+◌, ◌*◌, ◌++◌, ◌∷◌, false, [], length, nat_eq, IfOk, IfErr, OnOk};
ghost use Rattle.std.specs.List.{list_any};
ghost use Rattle.indexmap.specs.IndexMap.{index_map_len};
ghost use Rattle.std.specs.Cmp.Lexicographic.{pointwise};
ghost use Rattle.dpl_spec_format.specs.Fields as fields;
ghost use Rattle.dpl_spec_format.specs.Kinds as format;
ghost use Rattle.dpl_spec_format.specs.Tree as tree;
ghost use Rattle.dpl_records.specs.Seen.{seen};
ghost use Rattle.dpl_syntax.specs.declared.fault.SyntaxFault.TheVariants.{NoMemory};
ghost use Rattle.dpl_syntax.specs.Libraries.{structures_seen, known_names, IsSizedEach};
ghost use Rattle.dpl_syntax.specs.Outcome.{Refuses};
ghost use Rattle.dpl_syntax.specs.Passing.{IsNext, FailsNamed, structure_then, structures_first, AreTakenStructures};
ghost use Rattle.dpl_syntax.specs.Adding.{IsAdded};
ghost use Rattle.dpl_syntax.specs.Reading.{Answers, take_strname};

use crate::fault::SyntaxFault;
use crate::library::Structure;
use crate::reader::Reader;
use dpl_records::{Record, kinds, name_of};
use indexmap::IndexMap;
use std::alloc::Global;

impl<'a> Reader<'a> {
    /// The bytes of a whole record.
    pub(crate) fn whole(&self, record: &Record<'a>) -> &'a [u8]
        requires order { record.now.at ≤ record.now.next }
        requires within { record.now.next ≤ length self.now.bytes.now }
        ensures { result.now ≡ tree.whole self.now.bytes.now (seen record.now) }
    {
        &self.bytes[record.at..record.next]
    }

    /// The STRNAME of a structure, whose name is a new one and isn't empty.
    fn take_strname(
        &mut self,
        known: &IndexMap<&'a [u8], Structure<'a>>,
    ) -> Result<Record<'a>, SyntaxFault>
        ensures exact { Answers (λ r. (seen r, self.new.at)) result (take_strname self.old.bytes.now (known_names known.now.entries) self.old.at) }
        ensures unknown { IfOk result (λ r. list_any (pointwise nat_eq (fields.name_of r.body.now)) (known_names known.now.entries) ≡ false) }
        ensures within { IfOk result (λ r. (r.at < r.next) × (r.next ≤ length self.old.bytes.now)) }
        ensures further { OnOk result (self.old.at + 4 ≤ self.new.at) }
        ensures on { self.old.at ≤ self.new.at }
        ensures bytes { self.new.bytes ≡ self.old.bytes }
    {
        let record = self.take(kinds::STRNAME)?;
        let name = name_of(record.body);
        if name.is_empty() {
            return Err(SyntaxFault::BadName { at: record.at });
        }
        if is_known(known, name) {
            return Err(SyntaxFault::DuplicateStructure { at: record.at });
        }
        Ok(record)
    }

    /// Adds the structure of this BGNSTR, behind which reading has come.
    fn add_structure(
        &mut self,
        alloc: Global,
        bgnstr: Record<'a>,
        structures: &mut IndexMap<&'a [u8], Structure<'a>>,
    ) -> Result<(), SyntaxFault>
        requires next { IsNext self.old.bytes.now bgnstr.at format.bgnstr (seen bgnstr) }
        requires behind { self.old.at ≡ bgnstr.next }
        ensures ok { OnOk result (IsAdded self.old.bytes.now structures.old.entries structures.new.entries bgnstr.entry.at self.new.at) }
        ensures err { IfErr result (λ e. Refuses (FailsNamed self.old.bytes.now (known_names structures.old.entries) structure_then bgnstr.entry.at) e) }
        ensures len { OnOk result (index_map_len structures.new ≤ index_map_len structures.old + 1) }
        ensures further { OnOk result (self.old.at + 4 ≤ self.new.at) }
        ensures bytes { self.new.bytes ≡ self.old.bytes }
    {
        let strname = self.take_strname(structures)?;
        let elements = self.elements(alloc)?;
        let structure = Structure {
            at: bgnstr.at,
            bgnstr: self.whole(&bgnstr),
            strname: self.whole(&strname),
            elements,
        };
        add(structures, name_of(strname.body), structure)
    }

    /// Adds the structures of a library, and reads its ENDLIB.
    fn add_structures(
        &mut self,
        alloc: Global,
        structures: &mut IndexMap<&'a [u8], Structure<'a>>,
    ) -> Result<(), SyntaxFault>
        requires none { structures.old.entries ≡ [] }
        requires empty { index_map_len structures.old ≡ 0 }
        ensures ok { OnOk result (AreTakenStructures self.old.bytes.now (structures_seen structures.new.entries) self.old.at) }
        ensures err { IfErr result (λ e. Refuses (FailsNamed self.old.bytes.now [] structures_first self.old.at) e) }
        ensures sized { OnOk result (IsSizedEach structures.new.entries) }
        ensures few { OnOk result (4 * index_map_len structures.new ≤ self.new.at) }
        ensures bytes { self.new.bytes ≡ self.old.bytes }
    {
        while let Some(bgnstr) = self.take_if(kinds::BGNSTR)? {
            self.add_structure(alloc, bgnstr, structures)?;
        }
        self.take(kinds::ENDLIB)?;
        Ok(())
    }

    /// The structures of a library, by name. Its ENDLIB is read too.
    pub(crate) fn structures(
        &mut self,
        alloc: Global,
    ) -> Result<IndexMap<&'a [u8], Structure<'a>>, SyntaxFault>
        ensures ok { IfOk result (λ m. AreTakenStructures self.old.bytes.now (structures_seen m.entries) self.old.at) }
        ensures err { IfErr result (λ e. Refuses (FailsNamed self.old.bytes.now [] structures_first self.old.at) e) }
        ensures sized { IfOk result (λ m. IsSizedEach m.entries) }
        ensures few { IfOk result (λ m. 4 * index_map_len m ≤ self.new.at) }
        ensures bytes { self.new.bytes ≡ self.old.bytes }
    {
        let mut structures = IndexMap::new(alloc);
        self.add_structures(alloc, &mut structures)?;
        Ok(structures)
    }
}

/// Whether a structure has this name.
fn is_known(known: &IndexMap<&[u8], Structure<'_>>, name: &[u8]) -> bool
    ensures { result ≡ list_any (pointwise nat_eq name.now) (known_names known.now.entries) }
{
    known.contains_key(&name)
}

/// Adds a structure whose name is new.
fn add<'a>(
    structures: &mut IndexMap<&'a [u8], Structure<'a>>,
    name: &'a [u8],
    structure: Structure<'a>,
) -> Result<(), SyntaxFault>
    requires { list_any (pointwise nat_eq name.now) (known_names structures.old.entries) ≡ false }
    ensures ok { OnOk result (structures.new.entries ≡ structures.old.entries ++ (name.entry, structure.entry) ∷ []) }
    ensures err { IfErr result (λ e. e ≡ NoMemory) }
    ensures len { OnOk result (index_map_len structures.new ≤ index_map_len structures.old + 1) }
{
    structures.insert(name, structure)?;
    Ok(())
}
