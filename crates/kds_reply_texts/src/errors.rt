//! The bodies of error responses.
ghost use Rattle.std.specs.Prelude.{◌≡◌, IfOk};
ghost use Rattle.serde_json.specs.Written.{compact_text};
ghost use Rattle.kds_reply_texts.specs.Errors.{error_data};
ghost use Rattle.kds_reply_texts.specs.Writing.{AddsTokens, tokens_of};

use crate::writing::{begin_object, end_object, new_writer, put_text, written};
use json::Writer;
use kds_base::{Memory, Octets};
use std::alloc::Global;

/// The HTTP status of every response to a refused command or a faulty request (Kinesis API Reference, Common Errors).
pub const BAD_REQUEST: u16 = 400;

/// An upper bound on the bytes of an error's body besides the error's name and message.
const ERROR_BYTES: usize = 32;

/// Writes an error as a JSON object with the error's name and message.
fn put_error(out: &mut Writer, name: &str, message: &str) -> Result<(), Memory>
    ensures { AddsTokens result out.old out.new (tokens_of (error_data name.now message.now)) }
{
    begin_object(out)?;
    put_text(out, "__type", name)?;
    put_text(out, "message", message)?;
    end_object(out)?;
    Ok(())
}

/// Returns the body of an error response: a JSON object with the error's name and message.
pub fn error_body(alloc: Global, name: &str, message: &str) -> Result<Octets, Memory>
    ensures { IfOk result (λ o. o ≡ compact_text (error_data name.now message.now)) }
{
    let size = name.len().saturating_add(message.len());
    let mut out = new_writer(alloc, size.saturating_add(ERROR_BYTES))?;
    put_error(&mut out, name, message)?;
    Ok(written(out))
}
