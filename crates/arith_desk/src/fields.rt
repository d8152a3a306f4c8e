//! The fields of a line.
ghost use Rattle.std.specs.Prelude.{OnOk};
ghost use Rattle.arith_desk.specs.Line.{AddsFields, texts};

use std::alloc::AllocError;
use text_fields::split_at_blank;

/// Appends the fields of a line. Errors: an allocation failed.
pub(crate) fn push_fields<'a>(fields: &mut Vec<&'a [u8]>, line: &'a [u8]) -> Result<(), AllocError>
    ensures { OnOk result (AddsFields line.now (texts fields.old.items) (texts fields.new.items)) }
{
    match split_at_blank(line) {
        Some((field, rest)) => {
            fields.push(field)?;
            push_fields(fields, rest)
        }
        None => {
            fields.push(line)?;
            Ok(())
        }
    }
}
