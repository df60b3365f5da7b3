//! From the bytes of a file to the squares of one layer, or to the first fault of the layout.
#![tactic(auto)]

mod fault;
mod layer;
mod many;
mod marked;

pub use fault::LayerFault;
pub use layer::{Layer, LayerChoice, copied_records, layer_by, layer_of, layer_within};
pub use many::{ReadLayer, layers_of};
pub use marked::{MarkedChoice, MarkedLayer, marked_layer_by, marked_layer_of};
