//! Certificates with the layer that they are for, and what is said of each.
ghost use Rattle.std.specs.Prelude.{◌≤◌};
ghost use Rattle.dpl_cert.specs.Grammar.{IsCert, IsRule};

use crate::sets::{cert_of, sets_of};
use dpl_base::Spacing;
use dpl_cert::Cert;
use dpl_check::{Verdict, check_conflict, check_masks};
use dpl_slabs::Slabs;
use std::alloc::{AllocError, Global};
use std::test::Fail;

/// How far apart features stay on one mask.
pub const SPACING: Spacing = Spacing {
    rule: 30,
    corner: 30,
};

/// How long a stitch is.
const OVERLAP: u32 = 10;

/// A layer, its masks if the certificate is of some, squares that are fixed to mask A and to mask B, whether these marks are asked for where the certificate is of a conflict, the certificate, and what is said of it. Sets of squares are told by rectangles: left, low, right and high.
pub struct Case<'a> {
    pub layer: &'a str,
    pub a: &'a str,
    pub b: &'a str,
    pub mark_a: &'a str,
    pub mark_b: &'a str,
    pub asked: bool,
    pub text: &'a str,
    pub verdict: Verdict,
}

/// What is said of a certificate of masks or a conflict, for a layer, masks A and B, and squares that are fixed to them.
fn verdict_of(
    alloc: Global,
    cert: &Cert,
    sets: &[Slabs],
    asked: bool,
    spacing: Spacing,
) -> Result<Option<Verdict>, AllocError>
    requires corner { spacing.corner ≤ spacing.rule }
    requires rule { IsRule spacing.rule }
    requires cert { IsCert cert.now }
{
    let [layer, a, b, mark_a, mark_b] = sets else {
        return Ok(None);
    };
    match cert {
        Cert::Masks { .. } => {
            let verdict = check_masks(alloc, layer, a, b, cert, spacing, OVERLAP, mark_a, mark_b)?;
            Ok(Some(verdict))
        }
        Cert::Conflict { .. } => {
            let verdict = check_conflict(
                alloc, layer, cert, spacing, OVERLAP, mark_a, mark_b, asked,
            )?;
            Ok(Some(verdict))
        }
        Cert::Fault { .. } => Ok(None),
    }
}

/// Whether this is said of a case.
fn holds(alloc: Global, case: &Case<'_>, spacing: Spacing) -> Result<bool, AllocError>
    requires corner { spacing.corner ≤ spacing.rule }
    requires rule { IsRule spacing.rule }
{
    let Some(cert) = cert_of(alloc, case.text)? else {
        return Ok(false);
    };
    let texts = [case.layer, case.a, case.b, case.mark_a, case.mark_b];
    let Some(sets) = sets_of(alloc, &texts)? else {
        return Ok(false);
    };
    let found = verdict_of(alloc, &cert, sets.as_slice(), case.asked, spacing)?;
    Ok(found == Some(case.verdict))
}

/// Fails at the first case of which something else is said, with its number from 0 and its certificate.
pub fn all_hold(alloc: Global, cases: &[Case<'_>], spacing: Spacing) -> Result<(), Fail>
    requires corner { spacing.corner ≤ spacing.rule }
    requires rule { IsRule spacing.rule }
{
    for (number, case) in cases.iter().enumerate() {
        if !holds(alloc, case, spacing)? {
            let text = case.text;
            return Err(Fail::new(format_args!("case {number}: {text}")));
        }
    }
    Ok(())
}
