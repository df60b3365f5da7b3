//! Reading the bodies of elements.
#![tactic(auto)]

ghost use Rattle.std.specs.Prelude.{◌≡◌, ◌≤◌, length, IfOk, IfErr, OnOk, Err, IsTrue};
ghost use Rattle.std.specs.Option.{option_map, ForSome};
ghost use Rattle.dpl_spec_format.specs.Fields as fields;
ghost use Rattle.dpl_spec_format.specs.Kinds as format;
ghost use Rattle.dpl_spec_format.specs.Table.{IsSizeOf};
ghost use Rattle.dpl_spec_format.specs.Tree.{HasPoints};
ghost use Rattle.dpl_syntax.specs.Elements.{body_seen, trans_seen};
ghost use Rattle.dpl_syntax.specs.Outcome.{Refuses};
ghost use Rattle.dpl_syntax.specs.Reading.{Answers, IsTransformed, IsStyled, item_at, items_at, transformed, style, body_at, body_behind_flags, flags_end};
ghost use Rattle.dpl_syntax.specs.Shapes.{shape, IsShaped};

use crate::element::{Body, Trans};
use crate::fault::SyntaxFault;
use crate::reader::Reader;
use dpl_records::{i16_at, i32_at, kinds, real_at, u16_at};

/// What a BOUNDARY, a NODE and a BOX have behind their flags. `number` is the data of the record between LAYER and XY.
#[derive(Clone, Copy, Drop)]
struct Shape<'a> {
    layer: u16,
    number: &'a [u8],
    xy: &'a [u8],
}

/// The number in the two bytes of a record that may be missing.
fn short(found: Option<&[u8]>) -> Option<i16>
    requires { ForSome found (λ d. 2 ≤ length d.now) }
    ensures { result ≡ option_map (λ d. fields.i16_at d.now 0) found.entry }
{
    Some(i16_at(found?, 0))
}

/// The number in the four bytes of a record that may be missing.
fn long(found: Option<&[u8]>) -> Option<i32>
    requires { ForSome found (λ d. 4 ≤ length d.now) }
    ensures { result ≡ option_map (λ d. fields.i32_at d.now 0) found.entry }
{
    Some(i32_at(found?, 0))
}

/// The real in the eight bytes of a record that may be missing.
fn real(found: Option<&[u8]>) -> Option<[u8; 8]>
    requires { ForSome found (λ d. 8 ≤ length d.now) }
    ensures { result ≡ option_map (λ d. fields.real_at d.now 0) found.entry }
{
    Some(real_at(found?, 0))
}

impl<'a> Reader<'a> {
    /// ELFLAGS and PLEX, each of which may be missing. What they say is not kept.
    fn take_flags(&mut self) -> Result<(), SyntaxFault>
        ensures exact { Answers (λ _. self.new.at) result (flags_end self.old.bytes.now self.old.at) }
        ensures on { self.old.at ≤ self.new.at }
        ensures bytes { self.new.bytes ≡ self.old.bytes }
    {
        let kind = self.peek()?.kind;
        if kind != kinds::ELFLAGS && kind != kinds::PLEX {
            return Ok(());
        }
        self.take_if(kinds::ELFLAGS)?;
        self.take_if(kinds::PLEX)?;
        Ok(())
    }

    /// The transformation of a reference, where there is STRANS. MAG and ANGLE may be missing behind it.
    fn take_trans(&mut self) -> Result<Option<Trans>, SyntaxFault>
        ensures ok { IfOk result (λ t. IsTransformed self.old.bytes.now self.old.at (option_map trans_seen t) self.new.at) }
        ensures err { IfErr result (λ e. Refuses (λ f. item_at self.old.bytes.now transformed self.old.at ≡ Err f) e) }
        ensures on { self.old.at ≤ self.new.at }
        ensures bytes { self.new.bytes ≡ self.old.bytes }
    {
        let Some(strans) = self.take_data_if(kinds::STRANS)? else {
            return Ok(None);
        };
        let mag = self.take_data_if(kinds::MAG)?;
        let angle = self.take_data_if(kinds::ANGLE)?;
        Ok(Some(Trans {
            strans: u16_at(strans, 0),
            mag: real(mag),
            angle: real(angle),
        }))
    }

    /// What a TEXT has between its type and its point: PRESENTATION, PATHTYPE, WIDTH and a transformation, each of which may
    /// be missing. What they say is not kept.
    fn take_style(&mut self) -> Result<(), SyntaxFault>
        ensures ok { OnOk result (IsStyled self.old.bytes.now self.old.at self.new.at) }
        ensures err { IfErr result (λ e. Refuses (λ f. items_at self.old.bytes.now style self.old.at ≡ Err f) e) }
        ensures on { self.old.at ≤ self.new.at }
        ensures bytes { self.new.bytes ≡ self.old.bytes }
    {
        self.take_if(kinds::PRESENTATION)?;
        self.take_if(kinds::PATHTYPE)?;
        self.take_if(kinds::WIDTH)?;
        self.take_trans()?;
        Ok(())
    }

    /// LAYER, a record of this type, and XY.
    fn take_shape(&mut self, kind: u8) -> Result<Shape<'a>, SyntaxFault>
        ensures ok { IfOk result (λ s. IsShaped self.old.bytes.now kind self.old.at s.layer s.number.now s.xy.now self.new.at) }
        ensures err { IfErr result (λ e. Refuses (λ f. items_at self.old.bytes.now (shape kind) self.old.at ≡ Err f) e) }
        ensures sized { IfOk result (λ s. IsSizeOf kind (length s.number.now)) }
        ensures points { IfOk result (λ s. IsSizeOf format.xy (length s.xy.now)) }
        ensures on { self.old.at ≤ self.new.at }
        ensures bytes { self.new.bytes ≡ self.old.bytes }
    {
        let layer = self.take_data(kinds::LAYER)?;
        let number = self.take_data(kind)?;
        let xy = self.take_data(kinds::XY)?;
        Ok(Shape {
            layer: u16_at(layer, 0),
            number,
            xy,
        })
    }

    /// The body of a BOUNDARY behind its flags.
    fn boundary(&mut self) -> Result<Body<'a>, SyntaxFault>
        ensures exact { Answers (λ b. (body_seen b, self.new.at)) result (body_behind_flags self.old.bytes.now format.boundary self.old.at) }
        ensures points { IfOk result (λ b. HasPoints (body_seen b)) }
        ensures on { self.old.at ≤ self.new.at }
        ensures bytes { self.new.bytes ≡ self.old.bytes }
    {
        let shape = self.take_shape(kinds::DATATYPE)?;
        Ok(Body::Boundary {
            layer: shape.layer,
            datatype: u16_at(shape.number, 0),
            xy: shape.xy,
        })
    }

    /// The body of a PATH behind its flags.
    fn path(&mut self) -> Result<Body<'a>, SyntaxFault>
        ensures exact { Answers (λ b. (body_seen b, self.new.at)) result (body_behind_flags self.old.bytes.now format.path self.old.at) }
        ensures points { IfOk result (λ b. HasPoints (body_seen b)) }
        ensures on { self.old.at ≤ self.new.at }
        ensures bytes { self.new.bytes ≡ self.old.bytes }
    {
        let layer = self.take_data(kinds::LAYER)?;
        let datatype = self.take_data(kinds::DATATYPE)?;
        let kind = self.take_data_if(kinds::PATHTYPE)?;
        let width = self.take_data_if(kinds::WIDTH)?;
        let begin_ext = self.take_data_if(kinds::BGNEXTN)?;
        let end_ext = self.take_data_if(kinds::ENDEXTN)?;
        let xy = self.take_data(kinds::XY)?;
        Ok(Body::Path {
            layer: u16_at(layer, 0),
            datatype: u16_at(datatype, 0),
            kind: short(kind),
            width: long(width),
            begin_ext: long(begin_ext),
            end_ext: long(end_ext),
            xy,
        })
    }

    /// The body of an SREF behind its flags.
    fn sref(&mut self) -> Result<Body<'a>, SyntaxFault>
        ensures exact { Answers (λ b. (body_seen b, self.new.at)) result (body_behind_flags self.old.bytes.now format.sref self.old.at) }
        ensures points { IfOk result (λ b. HasPoints (body_seen b)) }
        ensures on { self.old.at ≤ self.new.at }
        ensures bytes { self.new.bytes ≡ self.old.bytes }
    {
        let name = self.take_name()?;
        let trans = self.take_trans()?;
        let xy = self.take_points(8)?;
        Ok(Body::Sref { name, trans, xy })
    }

    /// The body of an AREF behind its flags.
    fn aref(&mut self) -> Result<Body<'a>, SyntaxFault>
        ensures exact { Answers (λ b. (body_seen b, self.new.at)) result (body_behind_flags self.old.bytes.now format.aref self.old.at) }
        ensures points { IfOk result (λ b. HasPoints (body_seen b)) }
        ensures on { self.old.at ≤ self.new.at }
        ensures bytes { self.new.bytes ≡ self.old.bytes }
    {
        let name = self.take_name()?;
        let trans = self.take_trans()?;
        let colrow = self.take_data(kinds::COLROW)?;
        let xy = self.take_points(24)?;
        Ok(Body::Aref {
            name,
            trans,
            columns: i16_at(colrow, 0),
            rows: i16_at(colrow, 2),
            xy,
        })
    }

    /// The body of a TEXT behind its flags.
    fn text(&mut self) -> Result<Body<'a>, SyntaxFault>
        ensures exact { Answers (λ b. (body_seen b, self.new.at)) result (body_behind_flags self.old.bytes.now format.text self.old.at) }
        ensures points { IfOk result (λ b. HasPoints (body_seen b)) }
        ensures on { self.old.at ≤ self.new.at }
        ensures bytes { self.new.bytes ≡ self.old.bytes }
    {
        let layer = self.take_data(kinds::LAYER)?;
        let texttype = self.take_data(kinds::TEXTTYPE)?;
        self.take_style()?;
        let xy = self.take_points(8)?;
        let string = self.take_data(kinds::STRING)?;
        Ok(Body::Text {
            layer: u16_at(layer, 0),
            texttype: i16_at(texttype, 0),
            xy,
            string,
        })
    }

    /// The body of a NODE behind its flags.
    fn node(&mut self) -> Result<Body<'a>, SyntaxFault>
        ensures exact { Answers (λ b. (body_seen b, self.new.at)) result (body_behind_flags self.old.bytes.now format.node self.old.at) }
        ensures points { IfOk result (λ b. HasPoints (body_seen b)) }
        ensures on { self.old.at ≤ self.new.at }
        ensures bytes { self.new.bytes ≡ self.old.bytes }
    {
        let shape = self.take_shape(kinds::NODETYPE)?;
        Ok(Body::Node {
            layer: shape.layer,
            nodetype: i16_at(shape.number, 0),
            xy: shape.xy,
        })
    }

    /// The body of a BOX behind its flags.
    fn box_shape(&mut self) -> Result<Body<'a>, SyntaxFault>
        ensures exact { Answers (λ b. (body_seen b, self.new.at)) result (body_behind_flags self.old.bytes.now format.box self.old.at) }
        ensures points { IfOk result (λ b. HasPoints (body_seen b)) }
        ensures on { self.old.at ≤ self.new.at }
        ensures bytes { self.new.bytes ≡ self.old.bytes }
    {
        let shape = self.take_shape(kinds::BOXTYPE)?;
        Ok(Body::BoxShape {
            layer: shape.layer,
            boxtype: u16_at(shape.number, 0),
            xy: shape.xy,
        })
    }

    /// The body of an element of this type, from behind its first record on.
    pub(crate) fn body(&mut self, kind: u8) -> Result<Body<'a>, SyntaxFault>
        requires { IsTrue (format.begins_element kind) }
        ensures exact { Answers (λ b. (body_seen b, self.new.at)) result (body_at self.old.bytes.now kind self.old.at) }
        ensures points { IfOk result (λ b. HasPoints (body_seen b)) }
        ensures on { self.old.at ≤ self.new.at }
        ensures bytes { self.new.bytes ≡ self.old.bytes }
    {
        self.take_flags()?;
        self.body_behind_flags(kind)
    }

    /// The body of an element of this type, from behind its flags on.
    fn body_behind_flags(&mut self, kind: u8) -> Result<Body<'a>, SyntaxFault>
        requires { IsTrue (format.begins_element kind) }
        ensures exact { Answers (λ b. (body_seen b, self.new.at)) result (body_behind_flags self.old.bytes.now kind self.old.at) }
        ensures points { IfOk result (λ b. HasPoints (body_seen b)) }
        ensures on { self.old.at ≤ self.new.at }
        ensures bytes { self.new.bytes ≡ self.old.bytes }
    {
        match kind {
            kinds::BOUNDARY => self.boundary(),
            kinds::PATH => self.path(),
            kinds::SREF => self.sref(),
            kinds::AREF => self.aref(),
            kinds::TEXT => self.text(),
            kinds::NODE => self.node(),
            _ => self.box_shape(),
        }
    }
}
