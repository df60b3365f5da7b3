//! A static search tree over rectangles, each with its owner: which of them have a square in a window.
#![tactic(auto)]

mod arrange;
mod blocks;
mod items;
mod owners;
mod search;
mod set;
mod tree;
mod view;
mod window;

pub use items::{Item, Items};
pub use owners::Owners;
pub use set::SetTree;
pub use tree::Tree;
pub use view::View;
pub use window::widened;
