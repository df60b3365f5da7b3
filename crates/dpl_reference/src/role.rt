//! What an element is for a layer.

ghost use Rattle.std.specs.Prelude.{◌≡◌};
ghost use Rattle.dpl_syntax.specs.Elements.{body_seen};
ghost use Rattle.dpl_spec_layout.specs.Elements.{is_on as is_on_layer};
ghost use Rattle.dpl_reference.specs.Roles.{IsRoleOf};

use dpl_spec_layout::Layer;
use dpl_syntax::{Body, Trans};

/// The width, type and extensions of a path, in database units; what the file leaves out is 0.
#[derive(Clone, Copy)]
pub struct PathStyle {
    pub width: i32,
    pub kind: i16,
    pub begin_ext: i32,
    pub end_ext: i32,
}

/// What an element is for the chosen layer. `xy` is the data of its XY.
#[derive(Clone, Copy)]
pub enum Role<'a> {
    /// A text, a node, or a shape that doesn't lie on the layer.
    Nothing,
    /// A boundary or box.
    Boundary {
        xy: &'a [u8],
    },
    /// A path.
    Path {
        style: PathStyle,
        xy: &'a [u8],
    },
    /// A reference to one copy, whatever it leads to.
    Single {
        trans: Option<Trans>,
    },
    /// A reference to an array of copies, whatever it leads to.
    Array {
        trans: Option<Trans>,
        columns: i16,
        rows: i16,
        xy: &'a [u8],
    },
}

/// Whether an element of this layer and datatype (of a box, its box type) lies on the chosen layer.
#[inline(always)]
fn is_on(chosen: Layer, layer: u16, datatype: u16) -> bool
    ensures { result ≡ is_on_layer chosen layer datatype }
{
    layer == chosen.layer && datatype == chosen.datatype
}

/// What an element is for the chosen layer.
#[inline(always)]
pub fn role_of<'a>(chosen: Layer, body: &Body<'a>) -> Role<'a>
    ensures { IsRoleOf chosen (body_seen body.now) result }
{
    match *body {
        Body::Boundary {
            layer,
            datatype,
            xy,
        } if is_on(chosen, layer, datatype) => Role::Boundary { xy },
        Body::BoxShape { layer, boxtype, xy } if is_on(chosen, layer, boxtype) => Role::Boundary {
            xy,
        },
        Body::Path {
            layer,
            datatype,
            kind,
            width,
            begin_ext,
            end_ext,
            xy,
        } if is_on(chosen, layer, datatype) => {
            let style = PathStyle {
                width: width.unwrap_or(0),
                kind: kind.unwrap_or(0),
                begin_ext: begin_ext.unwrap_or(0),
                end_ext: end_ext.unwrap_or(0),
            };
            Role::Path { style, xy }
        }
        Body::Sref { trans, .. } => Role::Single { trans },
        Body::Aref {
            trans,
            columns,
            rows,
            xy,
            ..
        } => Role::Array {
            trans,
            columns,
            rows,
            xy,
        },
        _ => Role::Nothing,
    }
}
