//! Tiles: the layer cut into the cells of a grid, so that each tile's conflicts can be found by themselves.
#![tactic(auto)]

mod bounds;
mod cells;
mod count;
mod finding;
mod grid;
mod items;
mod laws;
mod laying;
mod least;
mod meetings;
mod planning;
mod plans;
mod reach;
mod sides;

pub use items::items_of;
pub use laws::squares_have_one_cell;
pub use least::side_for;
pub use meetings::{Meeting, are_foes};
pub use planning::plan;
pub use plans::Plan;
