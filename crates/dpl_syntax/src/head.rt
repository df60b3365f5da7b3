//! Reading the head of a library.

ghost use Rattle.std.specs.Prelude.{◌≡◌, ◌<◌, true, IfOk, IfErr, OnOk, IfSome, IfNone, Err};
ghost use Rattle.dpl_spec_format.specs.Kinds as format;
ghost use Rattle.dpl_spec_format.specs.Records.{record_at};
ghost use Rattle.dpl_records.specs.Seen.{seen};
ghost use Rattle.dpl_syntax.specs.Outcome.{Refuses};
ghost use Rattle.dpl_syntax.specs.Passing.{PassesSkips, FailsSkips, skips_then, same, part_then, is_part, IsNextSkipped, IsNoneSkipped, IsTakenWhole, IsTakenPart};
ghost use Rattle.dpl_syntax.specs.Reading.{take};

use crate::fault::SyntaxFault;
use crate::reader::Reader;
use dpl_records::{Record, kinds};

/// Whether a record of this type is passed over in the head of a library.
fn is_skipped(kind: u8) -> bool
    ensures { result ≡ format.is_skipped kind }
{
    matches!(
        kind,
        kinds::REFLIBS | kinds::FONTS | kinds::GENERATIONS | kinds::ATTRTABLE | 0x32..=0x3B
    )
}

impl<'a> Reader<'a> {
    /// The next record, which stays the next, if it is passed over.
    fn peek_skipped(&self) -> Result<Option<Record<'a>>, SyntaxFault>
        ensures some { IfOk result (λ o. IfSome o (λ r. IsNextSkipped self.now.bytes.now self.now.at (seen r))) }
        ensures none { IfOk result (λ o. IfNone o (IsNoneSkipped self.now.bytes.now self.now.at)) }
        ensures err { IfErr result (λ e. Refuses (λ f. record_at self.now.bytes.now self.now.at ≡ Err f) e) }
    {
        let record = self.peek()?;
        if is_skipped(record.kind) {
            Ok(Some(record))
        } else {
            Ok(None)
        }
    }

    /// The records that are passed over.
    fn skip(&mut self) -> Result<(), SyntaxFault>
        ensures ok { OnOk result (PassesSkips self.old.bytes.now same self.old.at self.new.at) }
        ensures err { IfErr result (λ e. Refuses (FailsSkips self.old.bytes.now skips_then self.old.at) e) }
        ensures bytes { self.new.bytes ≡ self.old.bytes }
    {
        while let Some(record) = self.peek_skipped()? {
            self.at = record.next;
        }
        Ok(())
    }

    /// The bytes of the next record, which has to be of this type.
    pub(crate) fn take_whole(&mut self, kind: u8) -> Result<&'a [u8], SyntaxFault>
        ensures ok { IfOk result (λ whole. IsTakenWhole self.old.bytes.now kind whole.now self.old.at self.new.at) }
        ensures err { IfErr result (λ e. Refuses (λ f. take self.old.bytes.now kind self.old.at ≡ Err f) e) }
        ensures bytes { self.new.bytes ≡ self.old.bytes }
    {
        let record = self.take(kind)?;
        Ok(self.whole(&record))
    }

    /// The bytes of a record of this type. Those behind it that are passed over are read too.
    pub(crate) fn take_part(&mut self, kind: u8) -> Result<&'a [u8], SyntaxFault>
        requires { is_part kind ≡ true }
        ensures ok { IfOk result (λ part. IsTakenPart self.old.bytes.now kind part.now self.old.at self.new.at) }
        ensures err { IfErr result (λ e. Refuses (FailsSkips self.old.bytes.now (part_then kind) self.old.at) e) }
        ensures bytes { self.new.bytes ≡ self.old.bytes }
    {
        let part = self.take_whole(kind)?;
        self.skip()?;
        Ok(part)
    }
}
