//! Writes and parses shard ids and tokens. A token is the text of a shard iterator, or of a position in a listing of
//! shards (NextToken). The crate also decides whether a token has expired, and decodes base64, the encoding of tokens.
#![tactic(auto)]

mod code;
mod fields;
mod ids;
mod iterator;
mod laws;
mod life;
mod listing;

pub use code::decoded;
pub use ids::{one_id, read_shard_id, shard_id};
pub use iterator::{read_iter, write_iter};
pub use laws::one_token;
pub use life::{iter_expired, page_expired};
pub use listing::{read_page, write_page};
