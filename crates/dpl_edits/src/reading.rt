//! Reading edits: the text's lines, one after the other, up to the first bad one.
ghost use Rattle.std.specs.Prelude.{◌≡◌, ◌≢◌, ◌⊎◌, List, ◌∷◌, codes, IfOk, IfErr, IfSome, IfNone, IsOkAnd, Err};
ghost use Rattle.dpl_spec_split.specs.declared.Rect.{Rect};
ghost use Rattle.dpl_cert.specs.Grammar.{IsRect, rect_words};
ghost use Rattle.dpl_spec_edits.specs.declared.Edit.{Edit};
ghost use Rattle.dpl_spec_edits.specs.Text.{IsListed};
ghost use Rattle.dpl_edits.specs.Reading.{IsRefusal, line_words, IsEditLine};
ghost use Rattle.dpl_edits.specs.declared.reading.EditsFault.TheVariants.{NoMemory};
ghost use Rattle.dpl_edits.specs.Spelled.{edit_proper};

use dpl_parse::{Row, Words, next_row};
use dpl_spec_edits::Edit;
use dpl_spec_split::Rect;
use std::alloc::{AllocError, AllocFailed, Global};

/// How many edits a text may list.
pub const MOST_EDITS: u64 = 100_000;

/// Why no edits were read.
#[derive(Clone, Copy, Debug, Drop, PartialEq, Eq)]
pub enum EditsFault {
    /// Memory ran out.
    NoMemory,
    /// The first line, counted from 1, that is no edit, or one edit too many.
    BadLine { line: u64 },
}

impl From<AllocError> for EditsFault {
    ghost from_gives = { λ _ e. e ≡ NoMemory };

    fn from(_e: AllocError) -> EditsFault {
        EditsFault::NoMemory
    }
}

impl<T: Drop> From<AllocFailed<T>> for EditsFault {
    ghost from_gives = { λ _ e. e ≡ NoMemory };

    fn from(_e: AllocFailed<T>) -> EditsFault {
        EditsFault::NoMemory
    }
}

/// A line of the text. It wraps an edit, since both `Edit` and the trait of lines, `Row`, are of other crates.
#[derive(Clone, Copy, Drop)]
struct EditLine {
    edit: Edit,
}

/// Takes a rectangle that ends the line.
fn last_rect(words: &mut Words<'_>) -> Option<Rect>
    ensures found { IfSome result (λ r. IsRect r × (words.old ≡ rect_words r)) }
    ensures none { IfNone result ((r : Rect) → IsRect r → words.old ≢ rect_words r) }
{
    let rect = words.rect()?;
    words.end()?;
    Some(rect)
}

impl Row for EditLine {
    ghost spelled = { line_words };

    ghost fits = { IsEditLine };

    ghost proper = { edit_proper };

    fn read(words: &mut Words<'_>, _n: u64) -> Option<EditLine> {
        let word = words.next()?;
        if word == b"add".as_slice() {
            let rect = last_rect(words)?;
            return Some(EditLine {
                edit: Edit::Add(rect),
            });
        }
        if word == b"remove".as_slice() {
            let rect = last_rect(words)?;
            return Some(EditLine {
                edit: Edit::Remove(rect),
            });
        }
        None
    }
}

/// Reads a text of at most 100,000 edits, each in a line of its own that a line feed ends: `add` or `remove`, and the left, lower, right and upper edge
/// of a rectangle, in database units (its squares are the columns x0 to x1-1 and the rows y0 to y1-1). An empty text lists no edits. Fails at the first line that is no edit, or one too many.
pub fn read_edits(alloc: Global, bytes: &[u8]) -> Result<Vec<Edit>, EditsFault>
    // What is read is listed.
    ensures found { IfOk result (λ v. IsListed v.items bytes.now) }
    // What is listed is read, unless memory runs out.
    ensures back { (es : List Edit) → IsListed es bytes.now → IsOkAnd result (λ v. v.items ≡ es) ⊎ (result ≡ Err NoMemory) }
    // A text is refused at the first line by which it lists no edits.
    ensures line { IfErr result (λ e. IsRefusal bytes.now e) }
{
    let mut edits = Vec::new(alloc);
    let mut rest = bytes;
    for n in 0..MOST_EDITS {
        if rest.is_empty() {
            return Ok(edits);
        }
        let Some((line, after)) = next_row::<EditLine>(rest, 0) else {
            return Err(EditsFault::BadLine { line: n + 1 });
        };
        edits.push(line.edit)?;
        rest = after;
    }
    if rest.is_empty() {
        return Ok(edits);
    }
    Err(EditsFault::BadLine {
        line: MOST_EDITS + 1,
    })
}
