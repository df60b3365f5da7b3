//! Reading elements.

ghost use Rattle.std.specs.Prelude.{◌≡◌, ◌<◌, ◌≤◌, true, length, map, [], All, IfOk, IfErr, OnOk, IfSome, IfNone, Ok, Err};
ghost use Rattle.dpl_spec_format.specs.Kinds as format;
ghost use Rattle.dpl_spec_format.specs.Records.{record_at};
ghost use Rattle.dpl_records.specs.Seen.{seen};
ghost use Rattle.dpl_syntax.specs.Elements.{element_seen, IsSized};
ghost use Rattle.dpl_syntax.specs.Outcome.{Refuses};
ghost use Rattle.dpl_syntax.specs.Passing.{Passes, Fails, same, properties_end, property_first, endel_first, AreProperties, IsEnd, element_then, IsElement, IsNextElement, IsNoElement, IsTakenElement, class_first, elements_first, AreElements, AreTakenElements};

use crate::element::Element;
use crate::fault::SyntaxFault;
use crate::reader::Reader;
use dpl_records::{Record, kinds};
use std::alloc::Global;

/// Whether a record of this type begins an element.
fn begins_element(kind: u8) -> bool
    ensures { result ≡ format.begins_element kind }
{
    matches!(
        kind,
        kinds::BOUNDARY
            | kinds::PATH
            | kinds::SREF
            | kinds::AREF
            | kinds::TEXT
            | kinds::NODE
            | kinds::BOX
    )
}

impl<'a> Reader<'a> {
    /// The properties of an element.
    fn take_properties(&mut self) -> Result<(), SyntaxFault>
        ensures ok { OnOk result (Passes self.old.bytes.now property_first endel_first AreProperties self.old.at self.new.at) }
        ensures err { IfErr result (λ e. Refuses (Fails self.old.bytes.now property_first self.old.at) e) }
        ensures on { self.old.at ≤ self.new.at }
        ensures bytes { self.new.bytes ≡ self.old.bytes }
    {
        while let Some(_) = self.take_if(kinds::PROPATTR)? {
            self.take(kinds::PROPVALUE)?;
        }
        Ok(())
    }

    /// The properties of an element, and its ENDEL.
    fn take_listed_end(&mut self) -> Result<(), SyntaxFault>
        ensures ok { OnOk result (Passes self.old.bytes.now properties_end same IsEnd self.old.at self.new.at) }
        ensures err { IfErr result (λ e. Refuses (Fails self.old.bytes.now properties_end self.old.at) e) }
        ensures on { self.old.at ≤ self.new.at }
        ensures bytes { self.new.bytes ≡ self.old.bytes }
    {
        self.take_properties()?;
        self.take(kinds::ENDEL)?;
        Ok(())
    }

    /// The end of an element: its ENDEL, mostly without properties before it.
    fn take_end(&mut self) -> Result<(), SyntaxFault>
        ensures ok { OnOk result (Passes self.old.bytes.now properties_end same IsEnd self.old.at self.new.at) }
        ensures err { IfErr result (λ e. Refuses (Fails self.old.bytes.now properties_end self.old.at) e) }
        ensures on { self.old.at ≤ self.new.at }
        ensures bytes { self.new.bytes ≡ self.old.bytes }
    {
        match self.take_if(kinds::ENDEL)? {
            Some(_) => Ok(()),
            None => self.take_listed_end(),
        }
    }

    /// The element whose first record is the next one.
    fn element(&mut self, first: Record<'a>) -> Result<Element<'a>, SyntaxFault>
        requires next { record_at self.old.bytes.now self.old.at ≡ Ok (seen first) }
        requires after { self.old.at < first.next }
        requires within { first.next ≤ length self.old.bytes.now }
        requires begins { format.begins_element first.kind ≡ true }
        ensures ok { IfOk result (λ e. Passes self.old.bytes.now element_then same (IsElement (element_seen e)) self.old.at self.new.at) }
        ensures err { IfErr result (λ e. Refuses (Fails self.old.bytes.now element_then self.old.at) e) }
        ensures sized { IfOk result (λ e. IsSized e) }
        ensures further { OnOk result (self.old.at < self.new.at) }
        ensures on { self.old.at ≤ self.new.at }
        ensures bytes { self.new.bytes ≡ self.old.bytes }
    {
        self.at = first.next;
        let body = self.body(first.kind)?;
        self.take_end()?;
        Ok(Element { at: first.at, body })
    }

    /// The next record, which stays the next, if it begins an element.
    fn peek_element(&self) -> Result<Option<Record<'a>>, SyntaxFault>
        ensures some { IfOk result (λ o. IfSome o (λ r. IsNextElement self.now.bytes.now self.now.at (seen r))) }
        ensures none { IfOk result (λ o. IfNone o (IsNoElement self.now.bytes.now self.now.at)) }
        ensures err { IfErr result (λ e. Refuses (λ f. record_at self.now.bytes.now self.now.at ≡ Err f) e) }
    {
        let record = self.peek()?;
        if begins_element(record.kind) {
            Ok(Some(record))
        } else {
            Ok(None)
        }
    }

    /// The records between the name of a structure and its first element.
    fn skip_class(&mut self) -> Result<(), SyntaxFault>
        ensures ok { OnOk result (Passes self.old.bytes.now class_first elements_first (AreElements []) self.old.at self.new.at) }
        ensures err { IfErr result (λ e. Refuses (Fails self.old.bytes.now class_first self.old.at) e) }
        ensures on { self.old.at ≤ self.new.at }
        ensures bytes { self.new.bytes ≡ self.old.bytes }
    {
        while let Some(_) = self.take_if(kinds::STRCLASS)? {}
        Ok(())
    }

    /// The next element, whatever it has, if the next record begins one. Else that stays the next.
    fn next_of_any_form(&mut self) -> Result<Option<Element<'a>>, SyntaxFault>
        ensures some { IfOk result (λ o. IfSome o (λ e. IsTakenElement self.old.bytes.now self.old.at (element_seen e) self.new.at)) }
        ensures none { IfOk result (λ o. IfNone o (IsNoElement self.old.bytes.now self.old.at × (self.new.at ≡ self.old.at))) }
        ensures err { IfErr result (λ e. Refuses (Fails self.old.bytes.now elements_first self.old.at) e) }
        ensures sized { IfOk result (λ o. IfSome o (λ e. IsSized e)) }
        ensures further { IfOk result (λ o. IfSome o (λ _. self.old.at < self.new.at)) }
        ensures on { self.old.at ≤ self.new.at }
        ensures bytes { self.new.bytes ≡ self.old.bytes }
    {
        let Some(first) = self.peek_element()? else {
            return Ok(None);
        };
        let element = self.element(first)?;
        Ok(Some(element))
    }

    /// The next element, if the next record begins one. Else that stays the next.
    fn next_element(&mut self) -> Result<Option<Element<'a>>, SyntaxFault>
        ensures some { IfOk result (λ o. IfSome o (λ e. IsTakenElement self.old.bytes.now self.old.at (element_seen e) self.new.at)) }
        ensures none { IfOk result (λ o. IfNone o (IsNoElement self.old.bytes.now self.old.at × (self.new.at ≡ self.old.at))) }
        ensures err { IfErr result (λ e. Refuses (Fails self.old.bytes.now elements_first self.old.at) e) }
        ensures sized { IfOk result (λ o. IfSome o (λ e. IsSized e)) }
        ensures further { IfOk result (λ o. IfSome o (λ _. self.old.at < self.new.at)) }
        ensures on { self.old.at ≤ self.new.at }
        ensures bytes { self.new.bytes ≡ self.old.bytes }
    {
        match self.take_plain() {
            Some(plain) => Ok(Some(plain)),
            None => self.next_of_any_form(),
        }
    }

    /// Adds the elements of a structure, from behind its name on, and reads its ENDSTR.
    fn add_elements(&mut self, elements: &mut Vec<Element<'a>>) -> Result<(), SyntaxFault>
        requires none { elements.old.items ≡ [] }
        ensures ok { OnOk result (AreTakenElements self.old.bytes.now (map element_seen elements.new.items) self.old.at self.new.at) }
        ensures err { IfErr result (λ e. Refuses (Fails self.old.bytes.now class_first self.old.at) e) }
        ensures sized { OnOk result (All IsSized elements.new.items) }
        ensures on { self.old.at ≤ self.new.at }
        ensures bytes { self.new.bytes ≡ self.old.bytes }
    {
        self.skip_class()?;
        while let Some(element) = self.next_element()? {
            elements.push(element)?;
        }
        self.take(kinds::ENDSTR)?;
        Ok(())
    }

    /// The elements of a structure, from behind its name on. Its ENDSTR is read too.
    pub(crate) fn elements(&mut self, alloc: Global) -> Result<Vec<Element<'a>>, SyntaxFault>
        ensures ok { IfOk result (λ v. AreTakenElements self.old.bytes.now (map element_seen v.items) self.old.at self.new.at) }
        ensures err { IfErr result (λ e. Refuses (Fails self.old.bytes.now class_first self.old.at) e) }
        ensures sized { IfOk result (λ v. All IsSized v.items) }
        ensures on { self.old.at ≤ self.new.at }
        ensures bytes { self.new.bytes ≡ self.old.bytes }
    {
        let mut elements = Vec::new(alloc);
        self.add_elements(&mut elements)?;
        Ok(elements)
    }
}
