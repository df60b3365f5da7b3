//! What the data of each type of record is.

ghost use Rattle.std.specs.Prelude.{◌≡◌, unwrap_or};
ghost use Rattle.std.specs.Option.{option_map};
ghost use Rattle.dpl_spec_format.specs.Table as format;
ghost use Rattle.dpl_spec_format.specs.Records as records;
ghost use Rattle.dpl_records.specs.Forms.{form_in, form_seen, size_seen};

use Data::{
    Bits, Dates, Empty, Long, Points, Real, Reals, Short, Shorts, Text, Unchecked, Unknown,
};

/// How many bytes of data a record has.
#[derive(Clone, Copy, Drop)]
pub enum Size {
    Exactly(u16),
    Any,
    /// One point or more, of eight bytes each.
    Points,
}

/// What a type of record asks of its data: their type and their size.
#[derive(Clone, Copy, Drop)]
pub struct Form {
    /// Nothing where the data type isn't checked.
    pub data_type: Option<u8>,
    pub size: Size,
}

impl Form {
    /// Whether a record of this form may have this data type.
    pub fn has_type(&self, data_type: u8) -> bool
        ensures { result ≡ format.type_fits self.now.data_type data_type }
    {
        match self.data_type {
            Some(wanted) => data_type == wanted,
            None => true,
        }
    }

    /// Whether a record of this form may have this many bytes of data.
    pub fn has_size(&self, len: usize) -> bool
        ensures { result ≡ format.size_fits (size_seen self.now.size) len }
    {
        match self.size {
            Size::Exactly(wanted) => len == wanted as usize,
            Size::Any => true,
            Size::Points => 8 <= len && len % 8 == 0,
        }
    }
}

/// What the data of a type of record is, by a name.
#[derive(Clone, Copy)]
enum Data {
    /// There is no such type of record.
    Unknown,
    Unchecked,
    Empty,
    Bits,
    Short,
    Shorts,
    Dates,
    Long,
    Points,
    Real,
    Reals,
    Text,
}

/// What the data of each type of record are, from HEADER (type 0) on.
static TABLE: [Data; 60] = [
    Short, Dates, Text, Reals, Empty, Dates, Text, Empty, // 0x00 to 0x07: HEADER to ENDSTR
    Empty, Empty, Empty, Empty, Empty, Short, Short, Long, // 0x08 to 0x0F: BOUNDARY to WIDTH
    Points, Empty, Text, Shorts, Unknown, Empty, Short, Bits, // 0x10 to 0x17: XY to PRESENTATION
    Unknown, Text, Bits, Real, Real, Unknown, Unknown, Unchecked, // 0x18 to 0x1F: STRING to REFLIBS
    Unchecked, Short, Unchecked, Unchecked, Unknown, Unknown, Bits, Unknown, // 0x20 to 0x27: FONTS to ELFLAGS
    Unknown, Unknown, Short, Short, Text, Empty, Short, Long, // 0x28 to 0x2F: NODETYPE to PLEX
    Long, Long, Unchecked, Unchecked, Unchecked, Unchecked, Unchecked, Unchecked, // 0x30 to 0x37: from BGNEXTN on
    Unchecked, Unchecked, Unchecked, Unchecked, // 0x38 to 0x3B
];

impl Data {
    /// What the data are to be, or nothing where there is no such type of record.
    fn form(self) -> Option<Form>
        ensures { option_map form_seen result ≡ form_in self }
    {
        match self {
            Unknown => None,
            Unchecked => Some(Form {
                data_type: None,
                size: Size::Any,
            }),
            Empty => of_type(0, Size::Exactly(0)),
            Bits => of_type(1, Size::Exactly(2)),
            Short => of_type(2, Size::Exactly(2)),
            Shorts => of_type(2, Size::Exactly(4)),
            Dates => of_type(2, Size::Exactly(24)),
            Long => of_type(3, Size::Exactly(4)),
            Points => of_type(3, Size::Points),
            Real => of_type(5, Size::Exactly(8)),
            Reals => of_type(5, Size::Exactly(16)),
            Text => of_type(6, Size::Any),
        }
    }
}

/// The form of data of this type and size.
fn of_type(data_type: u8, size: Size) -> Option<Form>
    ensures { option_map form_seen result ≡ format.of data_type (size_seen size) }
{
    Some(Form {
        data_type: Some(data_type),
        size,
    })
}

/// What the data of a type of record is, where there is such a type.
pub fn form_of(kind: u8) -> Option<Form>
    ensures { option_map form_seen result ≡ format.form_of kind }
{
    let place = kind as usize;
    if place < TABLE.len() {
        TABLE[place].form()
    } else {
        None
    }
}

/// The data type of a type of record, or 0 where none is known.
pub fn data_type_of(kind: u8) -> u8
    ensures { result ≡ unwrap_or (records.data_type_of kind) 0 }
{
    match form_of(kind) {
        Some(
            Form {
                data_type: Some(data_type),
                ..
            },
        ) => data_type,
        _ => 0,
    }
}
