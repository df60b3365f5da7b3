//! A record, its bytes, and which one stands at an offset.

ghost use Rattle.std.specs.Prelude.{◌≡◌, ◌+◌, ◌%◌, ◌<◌, ◌≤◌, ◌++◌, length, IsSome, IfOk, OnOk, OnErr};
ghost use Rattle.dpl_spec_format.specs.Records.{record_at, record_bytes, data_type_of};
ghost use Rattle.dpl_spec_format.specs.Table.{IsSizeOf};
ghost use Rattle.dpl_records.specs.Seen.{Gives};

use crate::fault::RecordFault;
use crate::field::u16_at;
use crate::form::{data_type_of, form_of};
use std::alloc::AllocError;

/// A record within some bytes: its length, type and data type are four bytes, and its data follow.
#[derive(Clone, Copy, Drop)]
pub struct Record<'a> {
    /// The offset of its first byte.
    pub at: usize,
    /// The offset behind its last byte.
    pub next: usize,
    /// Its type.
    pub kind: u8,
    /// Its data.
    pub body: &'a [u8],
}

#[tactic(auto, unfolding(dpl_spec_format::specs::Records::record_at))]
#[inline(always)]
/// The record at the offset `at`, or the first cause by which there is none: fewer than four bytes are left, the length is
/// below 4 or odd, it passes the end, the type is unknown, the data type isn't that of the type, the size of the data isn't.
pub fn next_record(bytes: &[u8], at: usize) -> Result<Record<'_>, RecordFault>
    requires { at ≤ length bytes.now }
    ensures exact { Gives result (record_at bytes.now at) }
    ensures sized { IfOk result (λ r. IsSizeOf r.kind (length r.body.now)) }
    ensures within { IfOk result (λ r. (r.at ≡ at) × (at + 4 ≤ r.next) × (r.next ≤ length bytes.now)) }
{
    if bytes.len() - at < 4 {
        return Err(RecordFault::Truncated { at });
    }
    let len = u16_at(bytes, at) as usize;
    if len < 4 || len % 2 == 1 {
        return Err(RecordFault::BadLength { at });
    }
    if bytes.len() - at < len {
        return Err(RecordFault::Truncated { at });
    }
    let kind = bytes[at + 2];
    let Some(form) = form_of(kind) else {
        return Err(RecordFault::UnknownRecord { at });
    };
    if !form.has_type(bytes[at + 3]) {
        return Err(RecordFault::BadDataType { at });
    }
    if !form.has_size(len - 4) {
        return Err(RecordFault::BadSize { at });
    }
    Ok(Record {
        at,
        next: at + len,
        kind,
        body: &bytes[at + 4..at + len],
    })
}

/// Writes a record of a type that has a data type at the end of `out`. Where memory runs out, `out` stays as it was.
pub fn put_record(out: &mut Vec<u8>, kind: u8, body: &[u8]) -> Result<(), AllocError>
    requires typed { IsSome (data_type_of kind) }
    requires even { length body.now % 2 ≡ 0 }
    requires short { length body.now ≤ 65530 }
    ensures ok { OnOk result (out.new.items ≡ out.old.items ++ record_bytes kind body.now) }
    ensures err { OnErr result (out.new.items ≡ out.old.items) }
{
    out.reserve(body.len() + 4)?;
    out.extend_from_slice(&(body.len() as u16 + 4).to_be_bytes())?;
    out.push(kind)?;
    out.push(data_type_of(kind))?;
    out.extend_from_slice(body)
}
