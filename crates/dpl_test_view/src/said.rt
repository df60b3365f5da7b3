//! What texts are to be, or to have in them.

/// What is looked at of a text.
#[derive(Clone, Copy)]
pub enum Said<'a> {
    /// All of it.
    Is(&'a str),
    /// How it begins.
    Begins(&'a str),
    /// How it ends.
    Ends(&'a str),
    /// A part of it.
    Has(&'a str),
}

/// Whether a text is so.
fn is_so(text: &str, said: Said<'_>) -> bool {
    match said {
        Said::Is(whole) => text == whole,
        Said::Begins(front) => text.starts_with(front),
        Said::Ends(end) => text.ends_with(end),
        Said::Has(part) => text.contains(part),
    }
}

/// Whether all of this is so of a text.
pub fn are_so(text: &str, all: &[Said<'_>]) -> bool {
    for said in all {
        if !is_so(text, *said) {
            return false;
        }
    }
    true
}
