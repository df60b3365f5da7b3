//! Reading a certificate: the text's lines, each checked against the grammar, up to the first bad one. Lines, words and rows serve other texts of one line a thing, too.
#![tactic(auto)]

mod fault;
mod gains;
mod heads;
mod reading;
mod rows;
mod words;

pub use fault::CertFault;
pub use reading::{one_certificate, read_cert};
pub use rows::{Row, next_row};
pub use words::Words;
