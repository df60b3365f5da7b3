//! Laws of the whole: a command has at most one outcome, a layer of a batch is decomposed as by itself, an edited layer as one that is drawn so, `--fewer` tells no more stitches, masks are right, what is written is read back, and `check` finds it valid.
#![tactic(auto)]

mod alone;
mod edits;
mod outcome;
mod painted;
mod reread;
mod sure;
mod valid;

pub use alone::each_layer_is_alone;
pub use edits::edits_are_as_drawn;
pub use outcome::{fewer_tell_no_more, one_outcome};
pub use painted::painted_masks_are_right;
pub use reread::{masks_are_read, masks_read_back};
pub use sure::run_surely;
pub use valid::{own_files_are_valid, own_results_are_valid};
