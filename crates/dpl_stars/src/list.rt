//! The rows of a summary without an odd cycle, one for each piece that an edge touches.
ghost use Rattle.std.specs.Prelude.{◌≡◌, ◌≢◌, [], MatchOption, IfOk};
ghost use Rattle.std.specs.List.{All, Contains};
ghost use Rattle.dpl_stars.specs.Stars.{IsStarList};

use dpl_list::Id;
use std::alloc::{AllocError, Global};
use std::marker::Model;

/// A piece that some edge touches.
#[derive(Clone, Copy, Debug, Drop, PartialEq, Eq)]
pub struct Star {
    pub piece: Id,
    /// The least piece of its component.
    pub root: Id,
    /// Whether its distance to the root is odd.
    pub odd: bool,
}

/// Rows by rising piece. Each root has a row of its own, and a row at an odd distance. A contract sees the list of the rows.
#[derive(Drop)]
pub struct StarList {
    rows: Vec<Star>,
}

impl Model for StarList {
    ghost use Rattle.std.specs.Prelude.{List};
    ghost use Rattle.dpl_stars.specs.declared.list.Star.{Star};

    ghost Value = { List Star };

    ghost view = { λ l. l.rows.items };

    ghost use Rattle.dpl_stars.specs.Stars.{IsStarList};

    ghost invariant = { λ l. IsStarList l.rows.items };
}

impl StarList {
    /// No rows, as of a graph without edges.
    pub fn new(alloc: Global) -> StarList
        ensures { result ≡ [] }
    {
        StarList {
            rows: Vec::new(alloc),
        }
    }

    /// The list of these rows.
    pub fn of(rows: Vec<Star>) -> StarList
        requires { IsStarList rows.items }
        ensures { result ≡ rows.items }
    {
        StarList { rows }
    }

    /// The rows, by rising piece.
    pub fn items(&self) -> &[Star]
        ensures value { result.now ≡ self.now }
        ensures ordered { IsStarList self.now }
    {
        self.rows.as_slice()
    }

    /// The row of a piece.
    pub fn find(&self, piece: Id) -> Option<Star>
        ensures { MatchOption result (All (λ r. r.piece ≢ piece) self.now) (λ r. Contains self.now r × (r.piece ≡ piece)) }
    {
        let rows = self.rows.as_slice();
        match rows.binary_search_by_key(&piece, |r| r.piece) {
            Ok(k) => Some(rows[k]),
            Err(_) => None,
        }
    }

    /// The same rows once more.
    pub fn copy(&self, alloc: Global) -> Result<StarList, AllocError>
        ensures { IfOk result (λ l. l ≡ self.now) }
    {
        let rows = Vec::from_slice(alloc, self.rows.as_slice())?;
        Ok(StarList { rows })
    }
}
