//! Files that are refused: a line is said, and nothing is written.
ghost use Rattle.std.specs.Prelude.{◌≡◌, IfOk};
ghost use Rattle.dpl_cert.specs.declared.name.Name.TheVariants.{TooLarge};
ghost use Rattle.dpl_layer.specs.Reading.{limit};
ghost use Rattle.dpl_texts.specs.Texts.{bad_line_line as bad_line_line_of, file_word};
ghost use Rattle.dpl_run.specs.Check.{refusal_of};
ghost use Rattle.dpl_run.specs.Outcome.{says};
ghost use Rattle.dpl_run.specs.View.{output_view};
ghost use Rattle.dpl_run.specs.declared.status.Status.TheVariants.{Refused};

use crate::output::{Output, said};
use crate::status::Status;
use dpl_cert::Name;
use dpl_host::MAX_BYTES;
use dpl_texts::{NamedFile, bad_line_line, refused_file_line};
use std::alloc::{AllocError, Global};

/// A file is refused for its first fault.
pub(crate) fn refused<'a>(
    alloc: Global,
    file: NamedFile,
    name: Name,
    at: u64,
) -> Result<Output<'a>, AllocError>
    ensures { IfOk result (λ x. output_view x ≡ refusal_of (file_word file) name at) }
{
    let line = refused_file_line(alloc, file, name, at)?;
    Ok(said(alloc, Status::Refused, line))
}

/// A file has more bytes than are read.
pub(crate) fn too_large<'a>(alloc: Global, file: NamedFile) -> Result<Output<'a>, AllocError>
    ensures { IfOk result (λ x. output_view x ≡ refusal_of (file_word file) TooLarge limit) }
{
    refused(alloc, file, Name::TooLarge, MAX_BYTES as u64)
}

/// A text is refused for its first bad line.
pub(crate) fn bad_line<'a>(
    alloc: Global,
    file: NamedFile,
    line: u64,
) -> Result<Output<'a>, AllocError>
    ensures { IfOk result (λ x. output_view x ≡ says Refused (bad_line_line_of (file_word file) line)) }
{
    let line = bad_line_line(alloc, file, line)?;
    Ok(said(alloc, Status::Refused, line))
}
