//! Whose rectangles a search is for.

/// Whose rectangles a search is for.
#[derive(Clone, Copy, Drop)]
pub enum Owners {
    /// Everyone's.
    All,
    /// All but this owner's.
    But(usize),
    /// This owner's alone.
    Only(usize),
    /// Those of owners with a greater number.
    Above(usize),
}
