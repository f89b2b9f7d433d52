//! A law on the decimal texts of numbers. A law is a theorem, stated as the contract of a function that has no
//! parameters and an empty body.
ghost use Rattle.std.specs.Prelude.{◌≡◌, ◌≤◌, ◌<◌, ◌^◌, ℕ, List, decimal, Some};
ghost use Rattle.kds_base.specs.NumberText.{number_of};

/// Each number below 2^128 has exactly one decimal text, which is the text that is written for the number. Reading this
/// text returns the number. No other text is read as this number. In the contract, `number_of bits` returns only
/// numbers below 2^`bits`.
pub fn one_number_text()
    ensures reads { (bits n : ℕ) → bits ≤ 128 → n < 2 ^ bits → number_of bits (decimal n) ≡ Some n }
    ensures spells { (bits n : ℕ) (text : List ℕ) → bits ≤ 128 → number_of bits text ≡ Some n → text ≡ decimal n }
    ensures fits { (bits n : ℕ) (text : List ℕ) → number_of bits text ≡ Some n → n < 2 ^ bits }
{}
