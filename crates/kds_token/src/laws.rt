//! A law about the tokens of shard iterators and of positions in listings. A law is a theorem, stated as the contract
//! of an empty function.
ghost use Rattle.std.specs.Prelude.{◌≡◌, ◌≢◌, ℕ, List};
ghost use Rattle.base64.specs.GeneralPurpose.{IsBytes};
ghost use Rattle.kds_defs.specs.declared.reply.Iter.{Iter};
ghost use Rattle.kds_defs.specs.declared.reply.Page.{Page};
ghost use Rattle.kds_token.specs.Tokens.{iter_of, iter_token, page_of, page_token, IsIter, IsPage, ReadsAsIter};
ghost use Rattle.kds_token.specs.Tokens.{ReadsAsPage};

/// States that each token belongs to exactly one shard iterator, or to exactly one position in a listing. Different
/// iterators have different tokens, different positions have different tokens, and no iterator has the token of a
/// position. A byte string is parsed as a certain iterator if and only if it is this iterator's token. It is parsed as
/// a certain position if and only if it is this position's token.
pub fn one_token()
    ensures iterators { (i j : Iter) → IsIter i → IsIter j → iter_token i ≡ iter_token j → i ≡ j }
    ensures pages { (p q : Page) → IsPage p → IsPage q → page_token p ≡ page_token q → p ≡ q }
    ensures apart { (i : Iter) (p : Page) → IsIter i → IsPage p → iter_token i ≢ page_token p }
    ensures iterator_texts { (text : List ℕ) → IsBytes text → ReadsAsIter text (iter_of text) }
    ensures page_texts { (text : List ℕ) → IsBytes text → ReadsAsPage text (page_of text) }
{}
