//! Writes JSON objects and their members with `json::Writer`, which is part of the Rattle kit.
ghost use Rattle.std.specs.Prelude.{◌≡◌, ◌∷◌, [], decimal, IfOk};
ghost use Rattle.json.specs.Token.{begin_object, end_object, key, string};
ghost use Rattle.serde_json.specs.Data.{Data};
ghost use Rattle.serde_json.specs.Written.{compact_text};
ghost use Rattle.kds_reply_texts.specs.Writing.{AddsTokens, tokens_of};

use itoa::Buffer;
use json::Writer;
use kds_base::{Memory, Octets};
use std::alloc::Global;

/// Returns a new writer, with memory reserved for `capacity` bytes.
pub fn new_writer(alloc: Global, capacity: usize) -> Result<Writer, Memory>
    ensures nothing { IfOk result (λ out. out.tokens ≡ []) }
    ensures before { IfOk result (λ out. out.before ≡ []) }
{
    Ok(Writer::new(Vec::with_capacity(alloc, capacity)?))
}

/// Returns the text that was written with `out`. If one whole JSON value was written, the result is the compact text of
/// this value.
pub fn written(out: Writer) -> Octets
    requires { out.before ≡ [] }
    ensures { (d : Data) → out.tokens ≡ tokens_of d → result ≡ compact_text d }
{
    Octets::unshared(out.into_inner())
}

/// Writes the start of a JSON object.
pub fn begin_object(out: &mut Writer) -> Result<(), Memory>
    ensures { AddsTokens result out.old out.new (begin_object ∷ []) }
{
    out.begin_object()?;
    Ok(())
}

/// Writes the end of a JSON object.
pub fn end_object(out: &mut Writer) -> Result<(), Memory>
    ensures { AddsTokens result out.old out.new (end_object ∷ []) }
{
    out.end_object()?;
    Ok(())
}

/// Writes the name of a member, before its value is written.
pub fn put_name(out: &mut Writer, name: &str) -> Result<(), Memory>
    ensures { AddsTokens result out.old out.new (key name.now ∷ []) }
{
    out.key(name)?;
    Ok(())
}

/// Writes a member called `name` whose value is the hash key `hash` as a decimal string.
pub fn put_hash_key(out: &mut Writer, name: &str, hash: u128) -> Result<(), Memory>
    ensures { AddsTokens result out.old out.new (key name.now ∷ string (decimal hash) ∷ []) }
{
    let mut digits = Buffer::new();
    out.key(name)?;
    out.string(digits.format(hash))?;
    Ok(())
}

/// Writes a member called `name` whose value is the string `text`.
pub fn put_text(out: &mut Writer, name: &str, text: &str) -> Result<(), Memory>
    ensures { AddsTokens result out.old out.new (key name.now ∷ string text.now ∷ []) }
{
    out.key(name)?;
    out.string(text)?;
    Ok(())
}
