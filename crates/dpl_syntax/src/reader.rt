//! Reading a library record by record.

ghost use Rattle.std.specs.Prelude.{◌≡◌, ◌+◌, ◌<◌, ◌≤◌, length, IfOk, IfErr, IfSome, Err};
ghost use Rattle.std.specs.Option.{option_map};
ghost use Rattle.dpl_spec_format.specs.Fields as fields;
ghost use Rattle.dpl_spec_format.specs.Records.{record_at};
ghost use Rattle.dpl_spec_format.specs.Table.{IsSizeOf};
ghost use Rattle.dpl_records.specs.Seen.{seen};
ghost use Rattle.dpl_syntax.specs.Outcome.{Refuses};
ghost use Rattle.dpl_syntax.specs.Reading.{Answers, IsRead, data_in, take, take_if, take_name, take_points};

use crate::fault::SyntaxFault;
use dpl_records::{Record, kinds, name_of, next_record};

/// Where reading has come to.
#[derive(Drop)]
pub(crate) struct Reader<'a> {
    pub(crate) bytes: &'a [u8],
    pub(crate) at: usize,
    ghost within: { at ≤ length bytes.now },
}

impl<'a> Reader<'a> {
    /// The next record, which stays the next.
    pub(crate) fn peek(&self) -> Result<Record<'a>, SyntaxFault>
        ensures exact { Answers seen result (record_at self.now.bytes.now self.now.at) }
        ensures sized { IfOk result (λ r. IsSizeOf r.kind (length r.body.now)) }
        ensures within { IfOk result (λ r. (r.at ≡ self.now.at) × (r.at + 4 ≤ r.next) × (r.next ≤ length self.now.bytes.now)) }
    {
        Ok(next_record(self.bytes, self.at)?)
    }

    /// The next record, which has to be of this type.
    pub(crate) fn take(&mut self, kind: u8) -> Result<Record<'a>, SyntaxFault>
        ensures exact { Answers (λ r. (seen r, self.new.at)) result (take self.old.bytes.now kind self.old.at) }
        ensures sized { IfOk result (λ r. IsSizeOf kind (length r.body.now)) }
        ensures within { IfOk result (λ r. (r.at ≡ self.old.at) × (r.at + 4 ≤ r.next) × (r.next ≤ length self.old.bytes.now) × (self.new.at ≡ r.next)) }
        ensures on { self.old.at ≤ self.new.at }
        ensures bytes { self.new.bytes ≡ self.old.bytes }
    {
        let record = self.peek()?;
        if record.kind != kind {
            return Err(SyntaxFault::Unexpected { at: record.at });
        }
        self.at = record.next;
        Ok(record)
    }

    /// The next record if it is of this type.
    pub(crate) fn take_if(&mut self, kind: u8) -> Result<Option<Record<'a>>, SyntaxFault>
        ensures exact { Answers (λ r. (option_map seen r, self.new.at)) result (take_if self.old.bytes.now kind self.old.at) }
        ensures sized { IfOk result (λ o. IfSome o (λ r. IsSizeOf kind (length r.body.now))) }
        ensures further { IfOk result (λ o. IfSome o (λ r. self.old.at < self.new.at)) }
        ensures within { IfOk result (λ o. IfSome o (λ r. (r.at ≡ self.old.at) × (r.at < r.next) × (r.next ≤ length self.old.bytes.now))) }
        ensures on { self.old.at ≤ self.new.at }
        ensures bytes { self.new.bytes ≡ self.old.bytes }
    {
        let record = self.peek()?;
        if record.kind != kind {
            return Ok(None);
        }
        self.at = record.next;
        Ok(Some(record))
    }

    /// The data of the next record, which has to be of this type.
    pub(crate) fn take_data(&mut self, kind: u8) -> Result<&'a [u8], SyntaxFault>
        ensures ok { IfOk result (λ d. IsRead (take self.old.bytes.now kind self.old.at) (λ r. d.now ≡ r.body) self.new.at) }
        ensures err { IfErr result (λ e. Refuses (λ f. take self.old.bytes.now kind self.old.at ≡ Err f) e) }
        ensures sized { IfOk result (λ d. IsSizeOf kind (length d.now)) }
        ensures on { self.old.at ≤ self.new.at }
        ensures bytes { self.new.bytes ≡ self.old.bytes }
    {
        Ok(self.take(kind)?.body)
    }

    /// The data of the next record if it is of this type.
    pub(crate) fn take_data_if(&mut self, kind: u8) -> Result<Option<&'a [u8]>, SyntaxFault>
        ensures ok { IfOk result (λ o. IsRead (take_if self.old.bytes.now kind self.old.at) (λ r. option_map (λ d. d.now) o ≡ option_map data_in r) self.new.at) }
        ensures err { IfErr result (λ e. Refuses (λ f. take_if self.old.bytes.now kind self.old.at ≡ Err f) e) }
        ensures sized { IfOk result (λ o. IfSome o (λ d. IsSizeOf kind (length d.now))) }
        ensures on { self.old.at ≤ self.new.at }
        ensures bytes { self.new.bytes ≡ self.old.bytes }
    {
        match self.take_if(kind)? {
            Some(record) => Ok(Some(record.body)),
            None => Ok(None),
        }
    }

    /// The name in the SNAME of a reference, which isn't empty.
    pub(crate) fn take_name(&mut self) -> Result<&'a [u8], SyntaxFault>
        ensures ok { IfOk result (λ n. IsRead (take_name self.old.bytes.now self.old.at) (λ r. n.now ≡ fields.name_of r.body) self.new.at) }
        ensures err { IfErr result (λ e. Refuses (λ f. take_name self.old.bytes.now self.old.at ≡ Err f) e) }
        ensures on { self.old.at ≤ self.new.at }
        ensures bytes { self.new.bytes ≡ self.old.bytes }
    {
        let record = self.take(kinds::SNAME)?;
        let name = name_of(record.body);
        if name.is_empty() {
            return Err(SyntaxFault::BadName { at: record.at });
        }
        Ok(name)
    }

    /// The data of an XY of `len` bytes.
    pub(crate) fn take_points(&mut self, len: usize) -> Result<&'a [u8], SyntaxFault>
        ensures ok { IfOk result (λ d. IsRead (take_points self.old.bytes.now len self.old.at) (λ r. d.now ≡ r.body) self.new.at) }
        ensures err { IfErr result (λ e. Refuses (λ f. take_points self.old.bytes.now len self.old.at ≡ Err f) e) }
        ensures len { IfOk result (λ d. length d.now ≡ len) }
        ensures on { self.old.at ≤ self.new.at }
        ensures bytes { self.new.bytes ≡ self.old.bytes }
    {
        let record = self.take(kinds::XY)?;
        if record.body.len() != len {
            return Err(SyntaxFault::BadSize { at: record.at });
        }
        Ok(record.body)
    }
}
