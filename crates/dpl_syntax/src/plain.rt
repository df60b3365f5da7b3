//! Reading boundaries without flags and properties, which most elements of large files are.
#![tactic(auto)]

ghost use Rattle.std.specs.Prelude.{◌≡◌, ◌<◌, ◌≤◌, length, IfSome, IfNone, Ok};
ghost use Rattle.dpl_spec_format.specs.Records.{record_at};
ghost use Rattle.dpl_spec_format.specs.Table.{IsSizeOf};
ghost use Rattle.dpl_records.specs.Seen.{seen};
ghost use Rattle.dpl_syntax.specs.Elements.{element_seen, IsSized};
ghost use Rattle.dpl_syntax.specs.Passing.{IsTakenElement};

use crate::element::{Body, Element};
use crate::reader::Reader;
use dpl_records::{Record, kinds, next_record, u16_at};

/// The record at the offset `at`, where it is of this type and nothing is wrong with it. Where the type is a constant, this is
/// quicker than to read a record of any type.
#[inline(always)]
fn record_of(bytes: &[u8], at: usize, kind: u8) -> Option<Record<'_>>
    requires { at ≤ length bytes.now }
    ensures exact { IfSome result (λ r. record_at bytes.now at ≡ Ok (seen r)) }
    ensures kind { IfSome result (λ r. r.kind ≡ kind) }
    ensures sized { IfSome result (λ r. IsSizeOf kind (length r.body.now)) }
    ensures within { IfSome result (λ r. (r.at ≡ at) × (at < r.next) × (r.next ≤ length bytes.now)) }
{
    if bytes.len() - at < 4 || bytes[at + 2] != kind {
        return None;
    }
    match next_record(bytes, at) {
        Ok(record) if record.kind == kind => Some(record),
        _ => None,
    }
}

impl<'a> Reader<'a> {
    /// The next element, where it is a boundary without flags and properties, and nothing is wrong with it. Else nothing is read.
    #[inline(always)]
    pub(crate) fn take_plain(&mut self) -> Option<Element<'a>>
        ensures taken { IfSome result (λ e. IsTakenElement self.old.bytes.now self.old.at (element_seen e) self.new.at) }
        ensures sized { IfSome result (λ e. IsSized e) }
        ensures further { IfSome result (λ e. self.old.at < self.new.at) }
        ensures stays { IfNone result (self.new.at ≡ self.old.at) }
        ensures bytes { self.new.bytes ≡ self.old.bytes }
    {
        let boundary = record_of(self.bytes, self.at, kinds::BOUNDARY)?;
        let layer = record_of(self.bytes, boundary.next, kinds::LAYER)?;
        let datatype = record_of(self.bytes, layer.next, kinds::DATATYPE)?;
        let xy = record_of(self.bytes, datatype.next, kinds::XY)?;
        let end = record_of(self.bytes, xy.next, kinds::ENDEL)?;
        self.at = end.next;
        Some(Element {
            at: boundary.at,
            body: Body::Boundary {
                layer: u16_at(layer.body, 0),
                datatype: u16_at(datatype.body, 0),
                xy: xy.body,
            },
        })
    }
}
