//! Writing the long lists of a certificate by workers.
ghost use Rattle.std.specs.Prelude.{◌≡◌, ◌+◌, ◌^◌, ◌<◌, ◌≤◌, ◌++◌, length, OnOk, IfOk, string_bytes};
ghost use Rattle.dpl_cert.specs.Lines.{text};
ghost use Rattle.dpl_cert.specs.Grammar.{rows, piece_words, stitch_words};
ghost use Rattle.dpl_cert.specs.Parts.{AreParts};

use crate::cert::{PieceLine, StitchLine};
use crate::writing::{put_pieces, put_stitches};
use std::alloc::{AllocError, Global};
use std::thread::{Threads, map_chunks};

/// How many pieces a worker makes the lines of in a round, before they are put behind the others.
const ROUND: usize = 65_536;

/// The lines of pieces, of which the first has this number.
fn pieces_text(alloc: Global, first: usize, pieces: &[PieceLine]) -> Result<String, AllocError>
    requires { first + length pieces.now < 2 ^ 64 }
    ensures { IfOk result (λ s. string_bytes s ≡ text (rows piece_words first pieces.now)) }
{
    let mut out = String::new(alloc);
    put_pieces(&mut out, first, pieces)?;
    Ok(out)
}

/// The lines of stitches.
fn stitches_text(alloc: Global, stitches: &[StitchLine]) -> Result<String, AllocError>
    ensures { IfOk result (λ s. string_bytes s ≡ text (rows stitch_words 0 stitches.now)) }
{
    let mut out = String::new(alloc);
    put_stitches(&mut out, stitches)?;
    Ok(out)
}

/// Puts texts one behind the other, and lets go of each once it is put.
fn put_parts(out: &mut String, parts: Vec<Result<String, AllocError>>) -> Result<(), AllocError>
    ensures { OnOk result (AreParts parts.items (string_bytes out.old) (string_bytes out.new)) }
{
    for part in parts {
        let part = part?;
        out.push_str(part.as_str())?;
    }
    Ok(())
}

/// A line for each of these pieces, of which the first has this number. So many workers have as many pieces each.
fn put_round_by<R: Threads + Sync>(
    rt: &R,
    alloc: Global,
    out: &mut String,
    first: usize,
    pieces: &[PieceLine],
    workers: u32,
) -> Result<(), AllocError>
    requires workers { 1 ≤ workers }
    requires few { first + length pieces.now < 2 ^ 64 }
    ensures { OnOk result (string_bytes out.new ≡ string_bytes out.old ++ text (rows piece_words first pieces.now)) }
{
    let size = pieces.len().div_ceil(workers as usize).max(1);
    let parts = map_chunks(
        rt,
        alloc,
        pieces,
        size,
        &|place, chunk| { pieces_text(alloc, first + place, chunk) },
    )?;
    put_parts(out, parts)
}

/// A line for each piece, round by round: of many pieces the texts that workers make in one round alone are in memory beside the whole.
pub(crate) fn put_pieces_by<R: Threads + Sync>(
    rt: &R,
    alloc: Global,
    out: &mut String,
    pieces: &[PieceLine],
    workers: u32,
) -> Result<(), AllocError>
    requires workers { 1 ≤ workers }
    ensures { OnOk result (string_bytes out.new ≡ string_bytes out.old ++ text (rows piece_words 0 pieces.now)) }
{
    let most = ROUND.saturating_mul(workers as usize);
    let mut first = 0;
    while first < pieces.len() {
        let (_, rest) = pieces.split_at(first);
        let (round, _) = rest.split_at(rest.len().min(most));
        put_round_by(rt, alloc, out, first, round, workers)?;
        first += round.len();
    }
    Ok(())
}

/// A line for each stitch. So many workers have as many stitches each.
pub(crate) fn put_stitches_by<R: Threads + Sync>(
    rt: &R,
    alloc: Global,
    out: &mut String,
    stitches: &[StitchLine],
    workers: u32,
) -> Result<(), AllocError>
    requires workers { 1 ≤ workers }
    ensures { OnOk result (string_bytes out.new ≡ string_bytes out.old ++ text (rows stitch_words 0 stitches.now)) }
{
    let size = stitches.len().div_ceil(workers as usize).max(1);
    let parts = map_chunks(
        rt,
        alloc,
        stitches,
        size,
        &|_, chunk| { stitches_text(alloc, chunk) },
    )?;
    put_parts(out, parts)
}
