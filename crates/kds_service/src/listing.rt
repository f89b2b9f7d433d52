//! Lists the names of the streams (ListStreams).
ghost use Rattle.std.specs.Prelude.{◌≡◌, IfOk, filter, map, take};
ghost use Rattle.indexmap.specs.IndexMap.{values};
ghost use Rattle.kds_defs.specs.declared.command.Command.TheVariants as command;
ghost use Rattle.kds_defs.specs.Lawful.{IsLimit};
ghost use Rattle.kds_defs.specs.Listings.{are_more, is_after_name, name_before, names_in_order};
ghost use Rattle.kds_service.specs.Shown.{LeadsTo, names_of};

use crate::streams_by_name::Streams;
use kds_base::{Items, Memory, Moment, Name};
use kds_defs::{Answer, Reply};
use std::alloc::Global;

/// Whether the name `a` comes before the name `b` if names are compared byte by byte.
fn is_before(a: &Name, b: &Name) -> bool
    ensures { result ≡ name_before a.now b.now }
{
    a.bytes().cmp(b.bytes()).is_lt()
}

/// Returns the names of all streams, sorted byte by byte.
fn names_in_order(alloc: Global, streams: &Streams) -> Result<Vec<&Name>, Memory>
    ensures { IfOk result (λ names. map (λ n. n.now) names.items ≡ names_in_order (names_of (values streams.now))) }
{
    let mut names = Vec::new(alloc);
    for i in 0..streams.len() {
        names.push(streams[i].name())?;
    }
    names.sort_unstable_by(|a, b| a.bytes().cmp(b.bytes()));
    Ok(names)
}

/// Whether a listing that begins after the name `after` contains `name`: `after` is `None`, or `name` comes later than
/// `after` when names are compared byte by byte.
fn is_after(after: &Option<Name>, name: &Name) -> bool
    ensures { result ≡ is_after_name after.now name.now }
{
    match after {
        None => true,
        Some(after) => is_before(after, name),
    }
}

/// Returns those of `names` that come after the name `after`, but at most the first `limit` of them. The returned
/// `bool` says whether more such names follow.
fn first_after(
    alloc: Global,
    names: &[&Name],
    after: &Option<Name>,
    limit: u32,
) -> Result<(Items<Name>, bool), Memory>
    ensures names { IfOk result
        (λ r. r.0 ≡ take limit (filter (is_after_name after.now) (map (λ n. n.now) names.now))) }
    ensures more { IfOk result
        (λ r. r.1 ≡ are_more limit (filter (is_after_name after.now) (map (λ n. n.now) names.now))) }
{
    let mut first = Items::new(alloc);
    for name in names {
        if is_after(after, name) {
            if first.as_slice().len() == limit as usize {
                return Ok((first, true));
            }
            let name = name.copy(alloc)?;
            first.push(name)?;
        }
    }
    Ok((first, false))
}

/// Returns a page of the names of the streams (Kinesis API Reference, ListStreams). The page begins after the name
/// `after`, and has at most `limit` names.
pub fn streams(
    alloc: Global,
    streams: &Streams,
    clock: Moment,
    after: &Option<Name>,
    limit: u32,
) -> Result<Answer, Memory>
    requires { IsLimit limit }
    ensures { IfOk result (LeadsTo clock (values streams.now) (values streams.now) (command.Streams after.now limit)) }
{
    let names = names_in_order(alloc, streams)?;
    let (names, more) = first_after(alloc, names.as_slice(), after, limit)?;
    Ok(Ok(Reply::Streams { names, more }))
}
