//! Reading a certificate.
ghost use Rattle.std.specs.Prelude.{◌≡◌, ◌≢◌, ℕ, ◌+◌, ◌^◌, ◌<◌, ◌≤◌, ◌↔◌, List, [], ◌∷◌, ◌++◌, length, ◌⊎◌, Ok, Err, IfOk, IfErr, Option, Some, None, IfSome, IfNone, IsTrue};
ghost use Rattle.dpl_cert.specs.declared.cert.Cert.{Cert};
ghost use Rattle.dpl_parse.specs.declared.fault.CertFault.TheVariants.{NoMemory, BadLine};
ghost use Rattle.dpl_cert.specs.Lines.{line, lines};
ghost use Rattle.dpl_cert.specs.declared.cert.Version.TheVariants.{One};
ghost use Rattle.dpl_parse.specs.declared.heads.Second.{Second};
ghost use Rattle.dpl_parse.specs.declared.heads.Counts.{Counts};
ghost use Rattle.dpl_cert.specs.Grammar.{IsText, IsHead, IsRule, IsNumber, AreGains, version_words, fault_words, gain_rows, opening, end_words};
ghost use Rattle.dpl_parse.specs.Heads.{masks_head, conflict_counts, counts_words, AreCounts, AreCountsOf, second_words, IsSecond, Follows, IsOfVersion, IsCornerOf, corner_or, IsGainedBy, gains_left, AreStitches, AreAsMany, number};
ghost use Rattle.dpl_parse.specs.Reading.{Answers, EndsAt, IsRefusal, StopsGains};

use crate::fault::CertFault;
use crate::gains::gains_of;
use crate::heads::{Counts, CycleCount, End, GainCount, Second};
use crate::rows::{next_row, rows_of};
use dpl_base::Listed;
use dpl_cert::{Cert, Gain, Head, Name, NearLine, PieceLine, PlaceLine, StitchLine, Version};
use std::alloc::Global;

/// Reads the last line, whose number is `at`, after which nothing stands.
fn ended(bytes: &[u8], at: u64) -> Result<(), CertFault>
    requires { at + 1 < 2 ^ 64 }
    ensures { EndsAt at (lines bytes.now) result }
{
    let Some((_, rest)) = next_row::<End>(bytes, 0) else {
        return Err(CertFault::BadLine { line: at });
    };
    if !rest.is_empty() {
        return Err(CertFault::BadLine { line: at + 1 });
    }
    Ok(())
}

/// Reads the line that counts the gains, where the version has gains.
fn gain_count(version: Version, bytes: &[u8]) -> Option<(Option<u64>, &[u8])>
    ensures found { IfSome result (λ r. IsGainedBy version r.0 × (lines bytes.now ≡ gains_left r.0 ++ lines r.1.now)) }
    ensures room { IfSome result (λ r. length r.1.now ≤ length bytes.now) }
    ensures none { IfNone result ((o : Option ℕ) (t : List (List ℕ)) → IsGainedBy version o → lines bytes.now ≢ gains_left o ++ t) }
{
    match version {
        Version::One => Some((None, bytes)),
        Version::Two => Some((None, bytes)),
        Version::Three => {
            let (gains, rest) = next_row::<GainCount>(bytes, 0)?;
            Some((Some(gains.len), rest))
        }
    }
}

/// Reads the lines of gains, if there are to be any; `at` is the number of the first one's line.
fn gain_lines(
    alloc: Global,
    bytes: &[u8],
    at: u64,
    count: Option<u64>,
) -> Result<(Option<Listed<Gain>>, &[u8]), CertFault>
    requires room { at + length bytes.now < 2 ^ 64 }
    requires fits { AreStitches count }
    ensures found { IfOk result (λ r. AreAsMany count r.0 × AreGains r.0 × (lines bytes.now ≡ gain_rows r.0 ++ lines r.1.now)) }
    ensures room { IfOk result (λ r. length r.1.now + number count ≤ length bytes.now) }
    ensures fault { IfErr result (λ e. StopsGains count at (lines bytes.now) e) }
{
    match count {
        None => Ok((None, bytes)),
        Some(n) => {
            let (gains, rest) = gains_of(alloc, bytes, at, n)?;
            Ok((Some(Listed::of(gains)), rest))
        }
    }
}

/// How many lines of gains there are.
fn number_of(gains: Option<u64>) -> u64
    ensures { result ≡ number gains }
{
    gains.unwrap_or(0)
}

/// The number of the first line of a piece.
fn first_piece(gains: Option<u64>) -> u64
    ensures number { result ≡ 4 + length (gains_left gains) }
    ensures few { result ≤ 5 }
{
    match gains {
        None => 4,
        Some(_) => 5,
    }
}

/// Reads the lines of a certificate of masks behind the counts, of which that of the gains is the last.
fn masks_of(
    alloc: Global,
    version: Version,
    head: Head,
    stitches: u64,
    gains: Option<u64>,
    bytes: &[u8],
) -> Result<Cert, CertFault>
    requires room { length bytes.now + 8 < 2 ^ 64 }
    requires version { IsOfVersion version head.rule head.corner }
    requires gains { IsGainedBy version gains }
    requires head { IsHead head }
    ensures { Answers (masks_head version head stitches gains ++ lines bytes.now) result }
{
    let at = first_piece(gains);
    let (pieces, rest) = rows_of::<PieceLine>(alloc, bytes, at, head.pieces)?;
    let at = at + head.pieces;
    let (listed, rest) = rows_of::<StitchLine>(alloc, rest, at, stitches)?;
    let at = at + stitches;
    let (gained, rest) = gain_lines(alloc, rest, at, gains)?;
    ended(rest, at + number_of(gains))?;
    Ok(Cert::Masks {
        head,
        pieces: Listed::of(pieces),
        stitches: Listed::of(listed),
        gains: gained,
    })
}

/// Reads the lines of a certificate of a conflict behind its counts.
fn conflict_of(alloc: Global, version: Version, head: Head, bytes: &[u8]) -> Result<Cert, CertFault>
    requires room { length bytes.now + 8 < 2 ^ 64 }
    requires version { IsOfVersion version head.rule head.corner }
    requires kind { AreCountsOf version None }
    requires head { IsHead head }
    ensures { Answers (conflict_counts version head ++ lines bytes.now) result }
{
    let Some((cycle, rest)) = next_row::<CycleCount>(bytes, 0) else {
        return Err(CertFault::BadLine { line: 4 });
    };
    let (places, rest) = rows_of::<PlaceLine>(alloc, rest, 5, cycle.len)?;
    let (near, rest) = rows_of::<NearLine>(alloc, rest, 5 + cycle.len, cycle.len)?;
    ended(rest, 5 + cycle.len + cycle.len)?;
    Ok(Cert::Conflict {
        head,
        cycle: Listed::of(places),
        near: Listed::of(near),
    })
}

/// Reads what stands behind the line of a fault.
fn fault_of(name: Name, at: u64, bytes: &[u8]) -> Result<Cert, CertFault>
    ensures { Answers (line (version_words One) ∷ line (fault_words name at) ∷ lines bytes.now) result }
{
    ended(bytes, 3)?;
    Ok(Cert::Fault { name, at })
}

/// Whether a certificate of the version may have these counts: one of version 3 counts stitches.
fn are_of(version: Version, stitches: Option<u64>) -> bool
    ensures { IsTrue result ↔ AreCountsOf version stitches }
{
    match version {
        Version::One => true,
        Version::Two => true,
        Version::Three => match stitches {
            None => false,
            Some(_) => true,
        },
    }
}

/// The counts of a version in the next line, and the text after it.
fn counts_of(version: Version, bytes: &[u8]) -> Option<(Counts, &[u8])>
    ensures found { IfSome result (λ r. AreCounts r.0 × AreCountsOf version r.0.stitches × (lines bytes.now ≡ line (counts_words 0 r.0) ∷ lines r.1.now)) }
    ensures shorter { IfSome result (λ r. length r.1.now < length bytes.now) }
    ensures none { IfNone result ((x : Counts) (t : List (List ℕ)) → AreCounts x → AreCountsOf version x.stitches → lines bytes.now ≢ line (counts_words 0 x) ∷ t) }
{
    let (counts, rest) = next_row::<Counts>(bytes, 0)?;
    if !are_of(version, counts.stitches) {
        return None;
    }
    Some((counts, rest))
}

/// Reads the lines behind that of the rule, the overlap and the corner rule.
fn ruled(
    alloc: Global,
    version: Version,
    rule: u32,
    overlap: u32,
    corner: u32,
    bytes: &[u8],
) -> Result<Cert, CertFault>
    requires room { length bytes.now + 8 < 2 ^ 64 }
    requires rule { IsRule rule }
    requires overlap { IsRule overlap }
    requires corner { IsCornerOf rule (Some corner) }
    requires version { IsOfVersion version rule corner }
    ensures { Answers (opening version rule overlap corner ++ lines bytes.now) result }
{
    let Some((counts, rest)) = counts_of(version, bytes) else {
        return Err(CertFault::BadLine { line: 3 });
    };
    let head = Head {
        rule,
        overlap,
        corner,
        features: counts.features,
        pieces: counts.pieces,
        zones: counts.zones,
    };
    match counts.stitches {
        Some(stitches) => {
            let Some((gains, rest)) = gain_count(version, rest) else {
                return Err(CertFault::BadLine { line: 4 });
            };
            masks_of(alloc, version, head, stitches, gains, rest)
        }
        None => conflict_of(alloc, version, head, rest),
    }
}

/// Whether a certificate of the version may have this second line.
fn follows(version: Version, second: Second) -> bool
    ensures { IsTrue result ↔ Follows version second }
{
    match second {
        Second::Rule { rule, corner, .. } => match corner {
            None => is_first(version),
            Some(corner) => match version {
                Version::One => false,
                Version::Two => corner < rule,
                Version::Three => true,
            },
        },
        Second::Refused { .. } => is_first(version),
    }
}

/// Whether it is version 1.
fn is_first(version: Version) -> bool
    ensures { IsTrue result ↔ (version ≡ One) }
{
    matches!(version, Version::One)
}

/// The second line of a version, and the text after it.
fn second_of(version: Version, bytes: &[u8]) -> Option<(Second, &[u8])>
    ensures found { IfSome result (λ r. IsSecond r.0 × Follows version r.0 × (lines bytes.now ≡ line (second_words 0 r.0) ∷ lines r.1.now)) }
    ensures shorter { IfSome result (λ r. length r.1.now < length bytes.now) }
    ensures none { IfNone result ((x : Second) (t : List (List ℕ)) → IsSecond x → Follows version x → lines bytes.now ≢ line (second_words 0 x) ∷ t) }
{
    let (second, rest) = next_row::<Second>(bytes, 0)?;
    if !follows(version, second) {
        return None;
    }
    Some((second, rest))
}

/// The corner rule, which is the rule where it isn't named.
fn corner_of(rule: u32, corner: Option<u32>) -> u32
    ensures { result ≡ corner_or rule corner }
{
    corner.unwrap_or(rule)
}

/// Reads the lines of a certificate, the first of which names its version.
fn read_lines(alloc: Global, bytes: &[u8]) -> Result<Cert, CertFault>
    ensures { Answers (lines bytes.now) result }
{
    let Some((version, rest)) = next_row::<Version>(bytes, 0) else {
        return Err(CertFault::BadLine { line: 1 });
    };
    let Some((second, rest)) = second_of(version, rest) else {
        return Err(CertFault::BadLine { line: 2 });
    };
    match second {
        Second::Rule {
            rule,
            overlap,
            corner,
        } => ruled(alloc, version, rule, overlap, corner_of(rule, corner), rest),
        Second::Refused { name, at } => fault_of(name, at, rest),
    }
}

/// Reads a certificate, or tells the first line by which a text is none.
pub fn read_cert(alloc: Global, bytes: &[u8]) -> Result<Cert, CertFault>
    // What is read is in the grammar.
    ensures found { IfOk result (λ c. IsText c bytes.now) }
    // What is in the grammar is read, unless memory runs out.
    ensures back { (c : Cert) → IsText c bytes.now → (result ≡ Ok c) ⊎ (result ≡ Err NoMemory) }
    // A text is refused at the first line up to which no text of the grammar begins like it.
    ensures line { IfErr result (λ e. IsRefusal bytes.now e) }
{
    read_lines(alloc, bytes)
}

/// No text is that of two certificates.
pub fn one_certificate()
    ensures { (c d : Cert) (bytes : List ℕ) → IsText c bytes → IsText d bytes → c ≡ d }
{}
