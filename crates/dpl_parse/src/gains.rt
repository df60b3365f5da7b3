//! The lines of gains, whose pieces rise.
ghost use Rattle.std.specs.Prelude.{◌≡◌, ◌≢◌, ℕ, ◌+◌, ◌^◌, ◌<◌, ◌≤◌, List, ◌∷◌, ◌++◌, length, IfSome, IfNone, IfOk, IfErr};
ghost use Rattle.dpl_cert.specs.declared.cert.Gain.{Gain};
ghost use Rattle.dpl_cert.specs.Lines.{line, lines};
ghost use Rattle.dpl_cert.specs.Grammar.{rows, gain_words, AreRising};
ghost use Rattle.dpl_parse.specs.Reading.{IsNext, StopsRising};

use crate::fault::CertFault;
use crate::rows::next_row;
use dpl_cert::Gain;
use std::alloc::Global;

/// The gain of the next line, whose piece is `least` or more and leaves numbers for `left` further lines, and the text after it.
fn next_gain(bytes: &[u8], least: u128, left: u64) -> Option<(Gain, &[u8])>
    ensures found { IfSome result (λ r. IsNext least left r.0 × (lines bytes.now ≡ line (gain_words 0 r.0) ∷ lines r.1.now)) }
    ensures shorter { IfSome result (λ r. length r.1.now < length bytes.now) }
    ensures none { IfNone result ((g : Gain) (t : List (List ℕ)) → IsNext least left g → lines bytes.now ≢ line (gain_words 0 g) ∷ t) }
{
    let (gain, rest) = next_row::<Gain>(bytes, 0)?;
    if (gain.piece as u128) < least {
        return None;
    }
    if gain.piece > u64::MAX - left {
        return None;
    }
    Some((gain, rest))
}

/// As many gains as this, and the text after them; `at` is the number of the first one's line.
pub fn gains_of(
    alloc: Global,
    bytes: &[u8],
    at: u64,
    count: u64,
) -> Result<(Vec<Gain>, &[u8]), CertFault>
    requires { at + length bytes.now < 2 ^ 64 }
    ensures found { IfOk result (λ r. (length r.0.items ≡ count) × AreRising 0 r.0.items × (lines bytes.now ≡ rows gain_words 0 r.0.items ++ lines r.1.now)) }
    ensures room { IfOk result (λ r. length r.1.now + count ≤ length bytes.now) }
    ensures fault { IfErr result (λ e. StopsRising count at (lines bytes.now) e) }
{
    let mut found = Vec::new(alloc);
    let mut rest = bytes;
    let mut least = 0;
    for n in 0..count {
        let Some((gain, after)) = next_gain(rest, least, count - n - 1) else {
            return Err(CertFault::BadLine { line: at + n });
        };
        found.push(gain)?;
        rest = after;
        least = gain.piece as u128 + 1;
    }
    Ok((found, rest))
}
