//! Reads messages, which are lists of fields (Protocol Buffers, encoding).
ghost use Rattle.std.specs.Prelude.{◌≡◌, map, option_map, IfOk};
ghost use Rattle.kpl_frame.specs.Fields.{field, last_content, last_number, message_of};

use crate::field::{FieldView, field_at};
use kds_base::Memory;
use std::alloc::Global;

/// Returns the fields of the message `bytes`. The inner `None` is returned if and only if `bytes` isn't a message.
pub fn fields_of(alloc: Global, bytes: &[u8]) -> Result<Option<Vec<FieldView<'_>>>, Memory>
    ensures { IfOk result (λ o. option_map (λ v. map field v.items) o ≡ message_of bytes.now) }
{
    let mut fields = Vec::new(alloc);
    let mut rest = bytes;
    while !rest.is_empty() {
        let Some((next, after)) = field_at(rest) else {
            return Ok(None);
        };
        fields.push(next)?;
        rest = after;
    }
    Ok(Some(fields))
}

/// Returns the number that the last field with the label `label` and the wire type 0 holds, or `None` if there is no
/// such field.
pub fn last_number(label: u64, fields: &[FieldView<'_>]) -> Option<u64>
    ensures { result ≡ last_number label (map field fields.now) }
{
    let mut last = None;
    for f in fields {
        if let Some(number) = f.number(label) {
            last = Some(number);
        }
    }
    last
}

/// Returns the bytes that the last field with the label `label` and the wire type 2 holds, or `None` if there is no
/// such field.
pub fn last_content<'a>(label: u64, fields: &[FieldView<'a>]) -> Option<&'a [u8]>
    ensures { option_map (λ b. b.now) result ≡ last_content label (map field fields.now) }
{
    let mut last = None;
    for f in fields {
        if let Some(content) = f.bytes(label) {
            last = Some(content);
        }
    }
    last
}
