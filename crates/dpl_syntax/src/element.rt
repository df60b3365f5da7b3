//! The elements of a structure.

/// The transformation of a reference: the bits of STRANS, and the eight bytes of the reals MAG and ANGLE.
#[derive(Clone, Copy, Drop)]
pub struct Trans {
    pub strans: u16,
    pub mag: Option<[u8; 8]>,
    pub angle: Option<[u8; 8]>,
}

/// What an element is. `xy` is the data of XY, eight bytes for each point; a name has no zeros at its end.
#[derive(Clone, Copy, Drop)]
pub enum Body<'a> {
    Boundary {
        layer: u16,
        datatype: u16,
        xy: &'a [u8],
    },
    Path {
        layer: u16,
        datatype: u16,
        kind: Option<i16>,
        width: Option<i32>,
        begin_ext: Option<i32>,
        end_ext: Option<i32>,
        xy: &'a [u8],
    },
    Sref {
        name: &'a [u8],
        trans: Option<Trans>,
        xy: &'a [u8],
    },
    Aref {
        name: &'a [u8],
        trans: Option<Trans>,
        columns: i16,
        rows: i16,
        xy: &'a [u8],
    },
    Text {
        layer: u16,
        texttype: i16,
        xy: &'a [u8],
        string: &'a [u8],
    },
    Node {
        layer: u16,
        nodetype: i16,
        xy: &'a [u8],
    },
    BoxShape {
        layer: u16,
        boxtype: u16,
        xy: &'a [u8],
    },
}

/// An element of a structure, and where it stands in the file.
#[derive(Clone, Copy, Drop)]
pub struct Element<'a> {
    /// The offset of its first record.
    pub at: usize,
    pub body: Body<'a>,
}
