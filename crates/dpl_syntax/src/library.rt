//! A library: its structures, by name and in the order of the file.

ghost use Rattle.std.specs.Prelude.{◌≡◌, ◌<◌, ◌≤◌, ◌^◌, length, map, position, nat_eq, slice_get, All, IfSome};
ghost use Rattle.std.specs.Cmp.Lexicographic.{pointwise};
ghost use Rattle.dpl_spec_format.specs.Tree.{names_in, elements_at, frame_of};
ghost use Rattle.dpl_syntax.specs.Elements.{element_seen, IsSized};
ghost use Rattle.dpl_syntax.specs.Frames.{frame_seen};

use crate::element::Element;
use indexmap::IndexMap;
use std::marker::Model;

/// A structure but for its name.
#[derive(Drop)]
pub(crate) struct Structure<'a> {
    /// The offset of BGNSTR.
    pub(crate) at: usize,
    pub(crate) bgnstr: &'a [u8],
    pub(crate) strname: &'a [u8],
    pub(crate) elements: Vec<Element<'a>>,
}

/// A library. Names, points and strings are parts of the file's bytes.
#[derive(Drop)]
pub struct Library<'a> {
    pub(crate) header: &'a [u8],
    pub(crate) bgnlib: &'a [u8],
    pub(crate) libname: &'a [u8],
    pub(crate) units: &'a [u8],
    pub(crate) structures: IndexMap<&'a [u8], Structure<'a>>,
}

impl<'a> Model for Library<'a> {
    ghost use Rattle.std.specs.Prelude.{◌≤◌, ◌^◌, All};
    ghost use Rattle.indexmap.specs.IndexMap.{index_map_len};
    ghost use Rattle.dpl_spec_format.specs.Tree.{Library as Tree};

    ghost Value = { Tree };

    ghost use Rattle.dpl_syntax.specs.Libraries.{library_seen, IsSizedEach};

    ghost view = { library_seen };

    ghost invariant = { λ l. (index_map_len l.structures ≤ 2 ^ 26) × IsSizedEach l.structures.entries };
}

/// The whole records of a file before the elements of one structure.
#[derive(Clone, Copy, Drop)]
pub struct Frame<'a> {
    pub header: &'a [u8],
    pub bgnlib: &'a [u8],
    pub libname: &'a [u8],
    pub units: &'a [u8],
    pub bgnstr: &'a [u8],
    pub strname: &'a [u8],
}

impl<'a> Library<'a> {
    /// How many structures there are, at most 2^26: a file of 268,435,456 bytes has no more. Their numbers are those below,
    /// in the order of the file.
    pub fn count(&self) -> u32
        ensures value { result ≡ length self.now.structures }
        ensures few { result ≤ 2 ^ 26 }
    {
        self.structures.len() as u32
    }

    /// The number of the structure of this name.
    pub fn structure(&self, name: &[u8]) -> Option<u32>
        ensures { result ≡ position (pointwise nat_eq name.now) (names_in self.now) }
    {
        match self.structures.get_index_of(&name) {
            Some(number) => Some(number as u32),
            None => None,
        }
    }

    /// The elements of a structure, in the order of the file.
    pub fn elements(&self, structure: u32) -> &[Element<'a>]
        requires { structure < length self.now.structures }
        ensures same { map element_seen result.now ≡ elements_at self.now structure }
        ensures points { All IsSized result.now }
    {
        let (_, found) = self.structures.get_index(structure as usize).unwrap();
        found.elements.as_slice()
    }

    /// The records that stand before a structure's elements: those of the library, and its own two.
    pub fn frame(&self, structure: u32) -> Frame<'a>
        requires { structure < length self.now.structures }
        ensures { IfSome (slice_get self.now.structures structure) (λ s. frame_seen result ≡ frame_of self.now s) }
    {
        let (_, found) = self.structures.get_index(structure as usize).unwrap();
        Frame {
            header: self.header,
            bgnlib: self.bgnlib,
            libname: self.libname,
            units: self.units,
            bgnstr: found.bgnstr,
            strname: found.strname,
        }
    }
}
