//! Counted steps.
ghost use Rattle.std.specs.Prelude.{◌≡◌, ◌+◌, ◌<◌};

use std::marker::Model;
use std::sync::ledger::{Blank, Book, Ledger, Share};

/// How many steps were taken: each is one tile whose conflicts were looked for. It takes no bytes.
///
/// The count is the total of a book of std's ledger, to which only a holder of a share can add. `Blank::new` gives a ledger with so many parts, and `Blank::open` its book, with a total of 0, and a share of all its parts.
#[derive(Drop)]
pub struct Steps<L: Ledger> {
    book: Book<L>,
    share: Share<L>,
}

impl<L: Ledger> Model for Steps<L> {
    ghost use Rattle.std.specs.Prelude.{ℕ, ◌<◌};

    ghost Value = { ℕ };

    ghost view = { λ s. s.book.total };

    ghost invariant = { λ s. 0 < s.share.parts };
}

impl<L: Ledger> Steps<L> {
    /// No steps yet. The blank names the ledger, and has some part.
    pub fn new(blank: Blank) -> Steps<L>
        requires name { blank.name ≡ L.name }
        requires parts { blank.parts ≡ L.parts }
        requires some { 0 < blank.parts }
        ensures { result ≡ 0 }
    {
        let (book, share) = blank.open::<L>();
        Steps { book, share }
    }

    /// As many steps as the book has counted, where the share has some part of the book's ledger.
    pub fn of(book: Book<L>, share: Share<L>) -> Steps<L>
        requires { 0 < share.parts }
        ensures { result ≡ book.total }
    {
        Steps { book, share }
    }

    /// The book, which has counted the steps, and the share, which still has some part.
    pub fn into_parts(self) -> (Book<L>, Share<L>)
        ensures total { result.0.total ≡ self }
        ensures some { 0 < result.1.parts }
    {
        (self.book, self.share)
    }

    /// One step more.
    pub(crate) fn tick(&mut self)
        ensures { self.new ≡ self.old + 1 }
    {
        self.book.add(&mut self.share, 1);
    }
}
