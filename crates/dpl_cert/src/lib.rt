//! Certificates: the text that tells how a layer was decomposed, why it could not be, or why it was
//! not read.
#![tactic(auto)]

mod cert;
mod key;
mod lists;
mod name;
mod writing;

pub use cert::{Cert, Gain, Head, NearLine, PieceLine, PlaceLine, StitchLine, Version};
pub use dpl_base::{Id, Listed};
pub use key::Key;
pub use name::{Name, name_of};
pub use writing::{cert_bytes, cert_bytes_by, named_corner};
