//! How many elements of each kind lie on a layer.
ghost use Rattle.std.specs.Prelude.{◌≡◌, ◌+◌, ◌≤◌, IsTrue, cond};
ghost use Rattle.dpl_spec_layout.specs.declared.Layer.{Layer as TreeLayer};
ghost use Rattle.dpl_spec_layout.specs.Elements.{is_on as is_on_layer};
ghost use Rattle.dpl_syntax.specs.Elements.{body_seen};
ghost use Rattle.dpl_view.specs.Layers.{AreCounts, HasRoom, is_boundary_on, is_box_on, is_node_on, is_path_on, is_text_on, unsigned as unsigned_of};

use dpl_flatten::Layer;
use dpl_syntax::Body;

/// How many elements of each kind there are.
#[derive(Clone, Copy, Debug, PartialEq, Eq)]
pub struct Counts {
    pub boundaries: u64,
    pub paths: u64,
    pub boxes: u64,
    pub texts: u64,
    pub nodes: u64,
}

/// How many elements of each kind lie on a layer.
#[derive(Clone, Copy, Debug)]
pub struct LayerCounts {
    /// The layer and the datatype; the type of a text, box or node stands for the datatype.
    pub layer: Layer,
    pub counts: Counts,
}

/// A signed type of sixteen bits as an unsigned one.
pub(crate) fn unsigned(kind: i16) -> u16
    ensures { result ≡ unsigned_of kind }
{
    let wide = i32::from(kind);
    if wide < 0 {
        (wide + 65_536) as u16
    } else {
        wide as u16
    }
}

/// Whether an element of this layer and datatype lies on the chosen layer.
fn is_on(chosen: Layer, layer: u16, datatype: u16) -> bool
    ensures { result ≡ is_on_layer chosen layer datatype }
{
    layer == chosen.layer && datatype == chosen.datatype
}

/// One where it holds, else none.
fn one_if(holds: bool) -> u64
    ensures value { result ≡ cond holds 1 0 }
    ensures small { result ≤ 1 }
{
    u64::from(holds)
}

impl Counts {
    /// No element.
    pub(crate) fn none() -> Counts
        ensures { (layer : TreeLayer) → AreCounts (λ test. 0) layer result }
    {
        Counts {
            boundaries: 0,
            paths: 0,
            boxes: 0,
            texts: 0,
            nodes: 0,
        }
    }

    /// Whether one more of each kind has its place.
    pub(crate) fn has_room(&self) -> bool
        ensures { IsTrue result → HasRoom self.now }
    {
        self.boundaries < u64::MAX
            && self.paths < u64::MAX
            && self.boxes < u64::MAX
            && self.texts < u64::MAX
            && self.nodes < u64::MAX
    }

    /// One element more.
    pub(crate) fn with(self, chosen: Layer, body: &Body<'_>) -> Counts
        requires { HasRoom self }
        ensures boundaries { result.boundaries ≡ self.boundaries + cond (is_boundary_on chosen (body_seen body.now)) 1 0 }
        ensures paths { result.paths ≡ self.paths + cond (is_path_on chosen (body_seen body.now)) 1 0 }
        ensures boxes { result.boxes ≡ self.boxes + cond (is_box_on chosen (body_seen body.now)) 1 0 }
        ensures texts { result.texts ≡ self.texts + cond (is_text_on chosen (body_seen body.now)) 1 0 }
        ensures nodes { result.nodes ≡ self.nodes + cond (is_node_on chosen (body_seen body.now)) 1 0 }
    {
        let mut counts = self;
        match *body {
            Body::Boundary {
                layer,
                datatype,
                ..
            } => counts.boundaries += one_if(is_on(chosen, layer, datatype)),
            Body::Path {
                layer,
                datatype,
                ..
            } => counts.paths += one_if(is_on(chosen, layer, datatype)),
            Body::BoxShape { layer, boxtype, .. } => {
                counts.boxes += one_if(is_on(chosen, layer, boxtype))
            }
            Body::Text {
                layer,
                texttype,
                ..
            } => counts.texts += one_if(is_on(chosen, layer, unsigned(texttype))),
            Body::Node {
                layer,
                nodetype,
                ..
            } => counts.nodes += one_if(is_on(chosen, layer, unsigned(nodetype))),
            Body::Sref { .. } | Body::Aref { .. } => {}
        }
        counts
    }
}
