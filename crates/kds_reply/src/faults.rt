//! The error responses to faulty requests.
ghost use Rattle.std.specs.Prelude.{◌≡◌, IsUtf8, IfOk, string_bytes};
ghost use Rattle.kds_reply.specs.Errors.{fault_name as name_of, fault_message as message_of};
ghost use Rattle.kds_reply.specs.Replies.{fault_reply};

use kds_base::{Memory, Octets};
use kds_json_members::{Fault, FaultKind};
use kds_reply_texts::{BAD_REQUEST, error_body};
use std::alloc::Global;

/// Returns the error name for a kind of fault (Kinesis API Reference, Common Errors).
fn fault_name(kind: FaultKind) -> &'static str
    ensures { result.now ≡ name_of kind }
{
    match kind {
        FaultKind::Unknown => "UnknownOperationException",
        FaultKind::Serialization => "SerializationException",
        FaultKind::Missing => "ValidationException",
        FaultKind::Invalid => "ValidationException",
        FaultKind::Token => "InvalidArgumentException",
    }
}

fn fault_message(alloc: Global, kind: FaultKind, member: &str) -> Result<String, Memory>
    ensures { IfOk result (λ s. string_bytes s ≡ message_of kind member.now) }
{
    match kind {
        FaultKind::Unknown => Ok(String::from_str(alloc, "unknown operation")?),
        FaultKind::Serialization => Ok(String::from_str(alloc, "body is not a JSON object")?),
        FaultKind::Missing => Ok(format!(in alloc; "{member} is missing")?),
        FaultKind::Invalid => Ok(format!(in alloc; "{member} is not valid")?),
        FaultKind::Token => Ok(format!(in alloc; "{member} is not valid")?),
    }
}

/// Returns the HTTP status and the body of the response to a faulty request (Kinesis API Reference, Common Errors). The
/// error `Memory` means that memory ran out.
pub fn fault(alloc: Global, fault: &Fault) -> Result<(u16, Octets), Memory>
    requires { IsUtf8 fault.now.member }
    ensures { IfOk result (λ r. r ≡ fault_reply fault.now) }
{
    match str::from_utf8(fault.member.as_slice()) {
        Ok(member) => {
            let message = fault_message(alloc, fault.kind, member)?;
            let body = error_body(alloc, fault_name(fault.kind), message.as_str())?;
            Ok((BAD_REQUEST, body))
        }
        Err(_) => unreachable!(),
    }
}
