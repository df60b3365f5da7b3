//! Rows: kinds of line that follow one another in a text, as those of a certificate do.
ghost use Rattle.std.specs.Prelude.{◌≡◌, ◌≢◌, ℕ, suc, ◌+◌, ◌^◌, ◌<◌, ◌≤◌, ℤ, Bool, List, [], ◌∷◌, ◌++◌, length, codes, Some, IfSome, IfNone, IfOk, IfErr};
ghost use Rattle.std.specs.List.{AllByRecursion};
ghost use Rattle.std.specs.Fmt.{decimal, signed_decimal};
ghost use Rattle.dpl_spec_split.specs.declared.Pt.{Pt};
ghost use Rattle.dpl_spec_split.specs.declared.Rect.{Rect};
ghost use Rattle.dpl_cert.specs.declared.name.Name.{Name};
ghost use Rattle.dpl_cert.specs.Names.{spelling};
ghost use Rattle.dpl_cert.specs.Lines.{line, lines, words_of, AreWords};
ghost use Rattle.dpl_parse.specs.Reading.{StopsAt};
ghost use Rattle.dpl_cert.specs.Grammar.{rows, IsNumber, IsCoordinate, IsPoint, IsRect, rect_words, IsPiece, IsStitch, IsPlace, IsNear, IsGain, letter, piece_words, stitch_words, place_words, near_words, gain_words};
ghost use Rattle.dpl_cert.specs.declared.cert.PlaceLine.{PlaceLine};
ghost use Rattle.dpl_cert.specs.declared.cert.NearLine.{NearLine};
ghost use Rattle.dpl_parse.specs.Spelled.{piece_proper, stitch_proper, place_proper, near_proper, gain_proper};

use crate::fault::CertFault;
use crate::words::{Words, coordinate_of, letter_of, next_line, number_of};
use dpl_cert::{Gain, Key, Name, NearLine, PieceLine, PlaceLine, StitchLine, name_of};
use dpl_spec_split::{Pt, Rect};
use std::alloc::Global;

impl Words<'_> {
    /// Takes this word.
    pub fn literal(&mut self, text: &[u8]) -> Option<()>
        ensures found { IfSome result (λ _. self.old ≡ text.now ∷ self.new) }
        ensures none { IfNone result ((t : List (List ℕ)) → self.old ≢ text.now ∷ t) }
    {
        let word = self.next()?;
        if word == text { Some(()) } else { None }
    }

    /// Takes a number.
    pub fn number(&mut self) -> Option<u64>
        ensures found { IfSome result (λ n. IsNumber n × (self.old ≡ decimal n ∷ self.new)) }
        ensures none { IfNone result ((n : ℕ) (t : List (List ℕ)) → IsNumber n → self.old ≢ decimal n ∷ t) }
    {
        let word = self.next()?;
        number_of(word)
    }

    /// Takes a coordinate.
    pub fn coordinate(&mut self) -> Option<i64>
        ensures found { IfSome result (λ z. IsCoordinate z × (self.old ≡ signed_decimal z ∷ self.new)) }
        ensures none { IfNone result ((z : ℤ) (t : List (List ℕ)) → IsCoordinate z → self.old ≢ signed_decimal z ∷ t) }
    {
        let word = self.next()?;
        coordinate_of(word)
    }

    /// Takes the letter of a mask.
    pub fn letter(&mut self) -> Option<bool>
        ensures found { IfSome result (λ b. self.old ≡ letter b ∷ self.new) }
        ensures none { IfNone result ((b : Bool) (t : List (List ℕ)) → self.old ≢ letter b ∷ t) }
    {
        let word = self.next()?;
        letter_of(word)
    }

    /// Takes a name.
    pub fn name(&mut self) -> Option<Name>
        ensures found { IfSome result (λ n. self.old ≡ spelling n ∷ self.new) }
        ensures none { IfNone result ((n : Name) (t : List (List ℕ)) → self.old ≢ spelling n ∷ t) }
    {
        let word = self.next()?;
        name_of(word)
    }

    /// Takes a point.
    pub fn point(&mut self) -> Option<Pt>
        ensures found { IfSome result (λ p. IsPoint p × (self.old ≡ signed_decimal p.x ∷ signed_decimal p.y ∷ self.new)) }
        ensures none { IfNone result ((p : Pt) (t : List (List ℕ)) → IsPoint p → self.old ≢ signed_decimal p.x ∷ signed_decimal p.y ∷ t) }
    {
        let x = self.coordinate()?;
        let y = self.coordinate()?;
        Some(Pt { x, y })
    }

    /// Takes a rectangle.
    pub fn rect(&mut self) -> Option<Rect>
        ensures found { IfSome result (λ r. IsRect r × (self.old ≡ rect_words r ++ self.new)) }
        ensures none { IfNone result ((r : Rect) (t : List (List ℕ)) → IsRect r → self.old ≢ rect_words r ++ t) }
    {
        let from = self.point()?;
        let to = self.point()?;
        if from.x >= to.x {
            return None;
        }
        if from.y >= to.y {
            return None;
        }
        Some(Rect {
            x0: from.x as i32,
            y0: from.y as i32,
            x1: to.x as i32,
            y1: to.y as i32,
        })
    }

    /// Takes the rest of the line of a cycle's piece.
    fn piece(&mut self) -> Option<PlaceLine>
        ensures found { IfSome result (λ p. IsPlace p × (codes "piece" ∷ self.old ≡ place_words 0 p)) }
        ensures none { IfNone result ((p : PlaceLine) → IsPlace p → codes "piece" ∷ self.old ≢ place_words 0 p) }
    {
        let piece = self.number()?;
        let key = self.point()?;
        self.end()?;
        Some(PlaceLine::Piece { piece, key })
    }

    /// Takes the rest of the line of a cycle's anchor.
    fn anchor(&mut self) -> Option<PlaceLine>
        ensures found { IfSome result (λ p. IsPlace p × (codes "anchor" ∷ self.old ≡ place_words 0 p)) }
        ensures none { IfNone result ((p : PlaceLine) → IsPlace p → codes "anchor" ∷ self.old ≢ place_words 0 p) }
    {
        let b = self.letter()?;
        self.end()?;
        Some(PlaceLine::Anchor { b })
    }

    /// Takes the rest of the line of two near squares.
    fn pair(&mut self) -> Option<NearLine>
        ensures found { IfSome result (λ p. IsNear p × (codes "near" ∷ self.old ≡ near_words 0 p)) }
        ensures none { IfNone result ((p : NearLine) → IsNear p → codes "near" ∷ self.old ≢ near_words 0 p) }
    {
        let from = self.point()?;
        let to = self.point()?;
        self.end()?;
        Some(NearLine::Pair { from, to })
    }

    /// Takes the rest of the line of a marked square.
    fn mark(&mut self) -> Option<NearLine>
        ensures found { IfSome result (λ p. IsNear p × (codes "marked" ∷ self.old ≡ near_words 0 p)) }
        ensures none { IfNone result ((p : NearLine) → IsNear p → codes "marked" ∷ self.old ≢ near_words 0 p) }
    {
        let at = self.point()?;
        self.end()?;
        Some(NearLine::Mark { at })
    }

    /// Takes the rest of the line between two anchors.
    fn anchors(&mut self) -> Option<NearLine>
        ensures found { IfSome result (λ p. IsNear p × (codes "anchors" ∷ self.old ≡ near_words 0 p)) }
        ensures none { IfNone result ((p : NearLine) → IsNear p → codes "anchors" ∷ self.old ≢ near_words 0 p) }
    {
        self.end()?;
        Some(NearLine::Anchors)
    }

    /// Whether no word is left.
    pub fn end(&mut self) -> Option<()>
        ensures found { IfSome result (λ _. self.old ≡ []) }
        ensures none { IfNone result (self.old ≢ []) }
    {
        match self.next() {
            None => Some(()),
            Some(_) => None,
        }
    }
}

/// A kind of line, whose words may have the line's place in them. Who implements it says which words a value has, which values there may be, and that these words have no space and no line feed; `read` takes all words of a line, and only those of a value.
pub trait Row: Sized {
    ghost spelled: { ℕ → Self → List (List ℕ) };

    ghost fits: { Self → Type 0 };

    fn read(words: &mut Words<'_>, n: u64) -> Option<Self>
        ensures found { IfSome result (λ x. fits x × (words.old ≡ spelled n x)) }
        ensures none { IfNone result ((x : Self) → fits x → words.old ≢ spelled n x) };

    ghost proper: { (n : ℕ) (x : Self) → n < 2 ^ 64 → fits x → AreWords (spelled n x) };
}

impl Row for PieceLine {
    ghost spelled = { piece_words };

    ghost fits = { IsPiece };

    ghost proper = { piece_proper };

    fn read(words: &mut Words<'_>, n: u64) -> Option<PieceLine> {
        words.literal(b"piece")?;
        let number = words.number()?;
        if number != n {
            return None;
        }
        let b = words.letter()?;
        let key = words.point()?;
        words.end()?;
        Some(PieceLine {
            b,
            key: Key::of(key),
        })
    }
}

impl Row for StitchLine {
    ghost spelled = { stitch_words };

    ghost fits = { IsStitch };

    ghost proper = { stitch_proper };

    fn read(words: &mut Words<'_>, _n: u64) -> Option<StitchLine> {
        words.literal(b"stitch")?;
        let rect = words.rect()?;
        let p = words.number()?;
        let q = words.number()?;
        words.end()?;
        Some(StitchLine { rect, p, q })
    }
}

impl Row for PlaceLine {
    ghost spelled = { place_words };

    ghost fits = { IsPlace };

    ghost proper = { place_proper };

    fn read(words: &mut Words<'_>, _n: u64) -> Option<PlaceLine> {
        let word = words.next()?;
        if word == b"piece".as_slice() {
            return words.piece();
        }
        if word == b"anchor".as_slice() {
            return words.anchor();
        }
        None
    }
}

impl Row for NearLine {
    ghost spelled = { near_words };

    ghost fits = { IsNear };

    ghost proper = { near_proper };

    fn read(words: &mut Words<'_>, _n: u64) -> Option<NearLine> {
        let word = words.next()?;
        if word == b"near".as_slice() {
            return words.pair();
        }
        if word == b"marked".as_slice() {
            return words.mark();
        }
        if word == b"anchors".as_slice() {
            return words.anchors();
        }
        None
    }
}

impl Row for Gain {
    ghost spelled = { gain_words };

    ghost fits = { IsGain };

    ghost proper = { gain_proper };

    fn read(words: &mut Words<'_>, _n: u64) -> Option<Gain> {
        words.literal(b"gain")?;
        let piece = words.number()?;
        let d = words.number()?;
        let s = words.number()?;
        words.end()?;
        Some(Gain { piece, d, s })
    }
}

/// The row of the next line, and the text after it.
pub fn next_row<T: Row>(bytes: &[u8], n: u64) -> Option<(T, &[u8])>
    ensures found { IfSome result (λ r. T.fits r.0 × (lines bytes.now ≡ line (T.spelled n r.0) ∷ lines r.1.now)) }
    ensures shorter { IfSome result (λ r. length r.1.now < length bytes.now) }
    ensures none { IfNone result ((x : T) (t : List (List ℕ)) → T.fits x → lines bytes.now ≢ line (T.spelled n x) ∷ t) }
{
    let (text, rest) = next_line(bytes)?;
    let mut words = Words::of(text);
    let row = T::read(&mut words, n)?;
    Some((row, rest))
}

/// As many rows as this, and the text after them; `at` is the number of the first one's line.
pub fn rows_of<T: Row + Drop>(
    alloc: Global,
    bytes: &[u8],
    at: u64,
    count: u64,
) -> Result<(Vec<T>, &[u8]), CertFault>
    requires { at + length bytes.now < 2 ^ 64 }
    ensures found { IfOk result (λ r. (length r.0.items ≡ count) × AllByRecursion T.fits r.0.items × (lines bytes.now ≡ rows T.spelled 0 r.0.items ++ lines r.1.now)) }
    ensures room { IfOk result (λ r. length r.1.now + count ≤ length bytes.now) }
    ensures fault { IfErr result (λ e. StopsAt T.spelled T.fits count at (lines bytes.now) e) }
{
    let mut found = Vec::new(alloc);
    let mut rest = bytes;
    for n in 0..count {
        let Some((row, after)) = next_row::<T>(rest, n) else {
            return Err(CertFault::BadLine { line: at + n });
        };
        found.push(row)?;
        rest = after;
    }
    Ok((found, rest))
}
