//! The lines before the rows, and the last one.
ghost use Rattle.std.specs.Prelude.{◌≡◌, ◌≢◌, ℕ, ◌+◌, ◌^◌, ◌<◌, ◌≤◌, ◌*◌, List, [], ◌∷◌, ◌++◌, length, codes, Option, Some, None, IfSome, IfNone, refl};
ghost use Rattle.std.specs.Fmt.{decimal};
ghost use Rattle.dpl_cert.specs.Lines.{line, lines};
ghost use Rattle.dpl_cert.specs.declared.cert.Version.{Version};
ghost use Rattle.dpl_cert.specs.Grammar.{IsNumber, IsRule, IsCycleLength, digit, version_words, corner_words, end_words};
ghost use Rattle.dpl_parse.specs.Heads.{second_words, IsSecond, IsCornerOf, stitches_left, AreStitches, counts_words, AreCounts, cycle_count_words, IsCycleCount, gain_count_words, IsGainCount};
ghost use Rattle.dpl_parse.specs.SpelledHeads.{version_proper, end_proper, second_proper, counts_proper, cycle_proper, gains_proper};

use crate::rows::Row;
use crate::words::Words;
use dpl_cert::{Name, Version};

/// The last line: `end`.
#[derive(Clone, Copy, Drop)]
pub struct End {}

/// The second line: the rule, the overlap and maybe the corner rule of a decomposition, or why the layout was refused.
#[derive(Clone, Copy, Drop)]
pub enum Second {
    Rule {
        rule: u32,
        overlap: u32,
        corner: Option<u32>,
    },
    Refused {
        name: Name,
        at: u64,
    },
}

/// The line of counts; that of a certificate of masks counts the stitches.
#[derive(Clone, Copy, Drop)]
pub struct Counts {
    pub features: u64,
    pub pieces: u64,
    pub zones: u64,
    pub stitches: Option<u64>,
}

/// The line that counts a cycle's places.
#[derive(Clone, Copy, Drop)]
pub struct CycleCount {
    pub len: u64,
}

/// The line that counts the gains.
#[derive(Clone, Copy, Drop)]
pub struct GainCount {
    pub len: u64,
}

/// The version that a word names.
fn version_of(word: &[u8]) -> Option<Version>
    ensures found { IfSome result (λ v. word.now ≡ digit v) }
    ensures none { IfNone result ((v : Version) → word.now ≢ digit v) }
{
    match word {
        b"1" => Some(Version::One),
        b"2" => Some(Version::Two),
        b"3" => Some(Version::Three),
        _ => None,
    }
}

impl Words<'_> {
    /// Takes a rule or an overlap: a distance in database units.
    fn distance(&mut self) -> Option<u32>
        ensures found { IfSome result (λ n. IsRule n × (self.old ≡ decimal n ∷ self.new)) }
        ensures none { IfNone result ((n : ℕ) (t : List (List ℕ)) → IsRule n → self.old ≢ decimal n ∷ t) }
    {
        let n = self.number()?;
        if n < 1 {
            return None;
        }
        if n > 1_000_000 {
            return None;
        }
        Some(n as u32)
    }

    /// Takes what is left of a line of counts.
    fn stitches(&mut self) -> Option<Option<u64>>
        ensures found { IfSome result (λ o. AreStitches o × (self.old ≡ stitches_left o)) }
        ensures none { IfNone result ((o : Option ℕ) → AreStitches o → self.old ≢ stitches_left o) }
    {
        let Some(word) = self.next() else {
            return Some(None);
        };
        if word != b"stitches".as_slice() {
            return None;
        }
        let k = self.number()?;
        self.end()?;
        Some(Some(k))
    }

    /// Takes what is left of a rule's line, where `rule` is the rule in database units.
    fn corner(&mut self, rule: u32) -> Option<Option<u32>>
        ensures found { IfSome result (λ o. IsCornerOf rule o × (self.old ≡ corner_words o)) }
        ensures none { IfNone result ((o : Option ℕ) → IsCornerOf rule o → self.old ≢ corner_words o) }
    {
        let Some(word) = self.next() else {
            return Some(None);
        };
        if word != b"corner".as_slice() {
            return None;
        }
        let corner = self.number()?;
        self.end()?;
        if corner < 1 {
            return None;
        }
        if corner > rule as u64 {
            return None;
        }
        Some(Some(corner as u32))
    }

    /// Takes the rest of a rule's line.
    fn rule_line(&mut self) -> Option<Second>
        ensures found { IfSome result (λ s. IsSecond s × (codes "rule" ∷ self.old ≡ second_words 0 s)) }
        ensures none { IfNone result ((s : Second) → IsSecond s → codes "rule" ∷ self.old ≢ second_words 0 s) }
    {
        let rule = self.distance()?;
        self.literal(b"overlap")?;
        let overlap = self.distance()?;
        let corner = self.corner(rule)?;
        Some(Second::Rule {
            rule,
            overlap,
            corner,
        })
    }

    /// Takes the rest of a fault's line.
    fn fault_line(&mut self) -> Option<Second>
        ensures found { IfSome result (λ s. IsSecond s × (codes "fault" ∷ self.old ≡ second_words 0 s)) }
        ensures none { IfNone result ((s : Second) → IsSecond s → codes "fault" ∷ self.old ≢ second_words 0 s) }
    {
        let name = self.name()?;
        let at = self.number()?;
        self.end()?;
        Some(Second::Refused { name, at })
    }
}

impl Row for Version {
    ghost spelled = { λ n v. version_words v };

    ghost fits = { λ v. Unit {0} };

    ghost proper = { version_proper };

    fn read(words: &mut Words<'_>, _n: u64) -> Option<Version> {
        words.literal(b"dpl")?;
        let word = words.next()?;
        words.end()?;
        version_of(word)
    }
}

impl Row for End {
    ghost spelled = { λ n e. end_words };

    ghost fits = { λ e. Unit {0} };

    ghost proper = { end_proper };

    fn read(words: &mut Words<'_>, _n: u64) -> Option<End> {
        words.literal(b"end")?;
        words.end()?;
        Some(End {})
    }
}

impl Row for Second {
    ghost spelled = { second_words };

    ghost fits = { IsSecond };

    ghost proper = { second_proper };

    fn read(words: &mut Words<'_>, _n: u64) -> Option<Second> {
        let word = words.next()?;
        if word == b"rule".as_slice() {
            return words.rule_line();
        }
        if word == b"fault".as_slice() {
            return words.fault_line();
        }
        None
    }
}

impl Row for Counts {
    ghost spelled = { counts_words };

    ghost fits = { AreCounts };

    ghost proper = { counts_proper };

    fn read(words: &mut Words<'_>, _n: u64) -> Option<Counts> {
        words.literal(b"features")?;
        let features = words.number()?;
        words.literal(b"pieces")?;
        let pieces = words.number()?;
        words.literal(b"zones")?;
        let zones = words.number()?;
        let stitches = words.stitches()?;
        Some(Counts {
            features,
            pieces,
            zones,
            stitches,
        })
    }
}

impl Row for CycleCount {
    ghost spelled = { cycle_count_words };

    ghost fits = { IsCycleCount };

    ghost proper = { cycle_proper };

    fn read(words: &mut Words<'_>, _n: u64) -> Option<CycleCount> {
        words.literal(b"cycle")?;
        let len = words.number()?;
        words.end()?;
        if len < 3 {
            return None;
        }
        if len % 2 != 1 {
            return None;
        }
        Some(CycleCount { len })
    }
}

impl Row for GainCount {
    ghost spelled = { gain_count_words };

    ghost fits = { IsGainCount };

    ghost proper = { gains_proper };

    fn read(words: &mut Words<'_>, _n: u64) -> Option<GainCount> {
        words.literal(b"gains")?;
        let len = words.number()?;
        words.end()?;
        Some(GainCount { len })
    }
}
