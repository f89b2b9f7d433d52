//! Decides whether tokens have expired.
ghost use Rattle.std.specs.Prelude.{◌≡◌};
ghost use Rattle.kds_defs.specs.Listings.{is_expired_token};

use kds_base::Moment;
use kds_defs::limits::TOKEN_LIFE;
use kds_defs::{Iter, Page};

/// Whether a token that was issued at the time `issued` is more than `TOKEN_LIFE` milliseconds old at the time `clock`.
fn is_expired_token(issued: Moment, clock: Moment) -> bool
    ensures { result ≡ is_expired_token clock issued }
{
    clock.ms().saturating_sub(issued.ms()) > TOKEN_LIFE
}

/// Whether a shard iterator has expired at the time `clock`, which means that it was issued more than 5 minutes before
/// `clock` (Kinesis API Reference, GetRecords, ExpiredIteratorException).
pub fn iter_expired(iter: &Iter, clock: Moment) -> bool
    ensures { result ≡ is_expired_token clock iter.now.issued }
{
    is_expired_token(iter.issued, clock)
}

/// Whether the token of a listing of shards has expired at the time `clock`, which means that it was issued more than 5
/// minutes before `clock` (Kinesis API Reference, ListShards, ExpiredNextTokenException).
pub fn page_expired(page: &Page, clock: Moment) -> bool
    ensures { result ≡ is_expired_token clock page.now.issued }
{
    is_expired_token(page.issued, clock)
}
