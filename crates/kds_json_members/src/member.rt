//! Finds required, optional and forbidden members in the JSON object of a request. A member whose value is null counts
//! as absent.
ghost use Rattle.std.specs.Prelude.{◌≡◌, is_some, option_map};
ghost use Rattle.serde_json.specs.Data.{object};
ghost use Rattle.serde_json.specs.Find.{as_object};
ghost use Rattle.serde_json.specs.View.{view};
ghost use Rattle.kds_json_members.specs.Results.{IsStop, Gives, fault_of, some_or};
ghost use Rattle.kds_json_members.specs.Member.{object_view, member_of, required, absent_at};

use crate::problem::{Fault, FaultKind, Stop};
use kds_base::Octets;
use serde_json::{Map, Value};
use std::alloc::Global;

/// Returns a fault of the kind `kind` that names the member `name`. If memory runs out, returns `Stop::Memory` instead.
pub fn stop_at(alloc: Global, kind: FaultKind, name: &str) -> Stop
    ensures { IsStop result (fault_of kind name.now) }
{
    match Octets::of(alloc, name.as_bytes()) {
        Ok(member) => Stop::Fault(Fault { kind, member }),
        Err(_) => Stop::Memory,
    }
}

/// Returns the value inside the option `value`. If `value` is `None`, returns a fault of the kind `kind` that names the
/// member `name`.
pub fn value_at<T: Drop>(
    alloc: Global,
    kind: FaultKind,
    name: &str,
    value: Option<T>,
) -> Result<T, Stop>
    ensures { Gives (λ x. x) result (some_or kind name.now value) }
{
    match value {
        Some(value) => Ok(value),
        None => Err(stop_at(alloc, kind, name)),
    }
}

/// Returns the members of `value` if it is a JSON object, and otherwise `None`.
pub fn object_members(value: Value) -> Option<Map<String, Value>>
    ensures { option_map object_view result ≡ option_map object (as_object (view value)) }
{
    match value {
        Value::Object(members) => Some(members),
        _ => None,
    }
}

/// Returns the value of the member `name`, or `None` if the member is absent or null.
pub fn member<'a>(object: &'a Map<String, Value>, name: &str) -> Option<&'a Value>
    ensures { option_map (λ v. view v.now) result ≡ member_of name.now (object_view object.now) }
{
    match object.get(name) {
        Some(value) => { if value.is_null() { None } else { Some(value) } }
        None => None,
    }
}

/// Whether the member `name` is present and not null.
pub fn has_member(object: &Map<String, Value>, name: &str) -> bool
    ensures { result ≡ is_some (member_of name.now (object_view object.now)) }
{
    member(object, name).is_some()
}

/// Returns the value of the required member `name`. The fault is `Missing` if the member is absent or null.
pub fn required_member<'a>(
    alloc: Global,
    object: &'a Map<String, Value>,
    name: &str,
) -> Result<&'a Value, Stop>
    ensures { Gives (λ v. view v.now) result (required name.now (object_view object.now)) }
{
    match member(object, name) {
        Some(value) => Ok(value),
        None => Err(stop_at(alloc, FaultKind::Missing, name)),
    }
}

/// Checks that the forbidden member `name` is absent or null. Otherwise the fault is `Invalid`.
pub fn absent_member(alloc: Global, object: &Map<String, Value>, name: &str) -> Result<(), Stop>
    ensures { Gives (λ u. u) result (absent_at name.now (object_view object.now)) }
{
    match member(object, name) {
        Some(_) => Err(stop_at(alloc, FaultKind::Invalid, name)),
        None => Ok(()),
    }
}
