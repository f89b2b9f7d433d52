//! Reads members that are tokens of this service: shard iterators and NextTokens. If the string in a member isn't such
//! a token, the fault is `Token`.
ghost use Rattle.std.specs.Prelude.{◌≡◌};
ghost use Rattle.kds_token.specs.Tokens.{iter_of, page_of};
ghost use Rattle.kds_json_members.specs.Results.{Gives};
ghost use Rattle.kds_json_members.specs.Member.{object_view, token_at};

use crate::member::value_at;
use crate::problem::{FaultKind, Stop};
use crate::texts::text_member;
use kds_defs::{Iter, Page};
use kds_token::{read_iter, read_page};
use serde_json::{Map, Value};
use std::alloc::Global;

/// Reads the required member `name` as a shard iterator.
#[tactic(auto, unfolding(crate::specs::Member::token_at))]
pub fn iterator_member(alloc: Global, object: &Map<String, Value>, name: &str) -> Result<Iter, Stop>
    ensures { Gives (λ x. x) result (token_at iter_of name.now (object_view object.now)) }
{
    let text = text_member(alloc, object, name)?;
    let iter = read_iter(alloc, text.as_bytes())?;
    value_at(alloc, FaultKind::Token, name, iter)
}

/// Reads the required member `name` as a NextToken of ListShards.
#[tactic(auto, unfolding(crate::specs::Member::token_at))]
pub fn page_member(alloc: Global, object: &Map<String, Value>, name: &str) -> Result<Page, Stop>
    ensures { Gives (λ x. x) result (token_at page_of name.now (object_view object.now)) }
{
    let text = text_member(alloc, object, name)?;
    let page = read_page(alloc, text.as_bytes())?;
    value_at(alloc, FaultKind::Token, name, page)
}
