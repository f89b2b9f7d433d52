//! A law about the bytes that several writes together append to an output. A law is a theorem, stated as the contract
//! of an empty function.
ghost use Rattle.std.specs.Prelude.{ℕ, ◌<◌, List, [], ◌++◌, length, Option};
ghost use Rattle.std.specs.Io.KnownBytes.{Appends};
ghost use Rattle.kds_ends.specs.Causes.{AppendsFront, AppendsPart};

/// States what several writes append together. Writes that succeed append the concatenation of their bytes. Now suppose
/// that the last write fails after it has appended a prefix of its bytes. Let the whole text be the bytes of all these
/// writes, followed by the bytes of any writes that were to come after the failed write. Then the writes have appended
/// a prefix of the whole text. If the failed write didn't append all of its bytes, or if at least one byte was to come
/// after it, this prefix is shorter than the whole text.
pub fn appends()
    ensures nothing { (held : Option (List ℕ)) → Appends held held [] }
    ensures more { (a b c : Option (List ℕ)) (xs ys : List ℕ) → Appends a b xs → Appends b c ys
        → Appends a c (xs ++ ys) }
    ensures front_later { (a b c : Option (List ℕ)) (xs ys : List ℕ) → Appends a b xs → AppendsFront b c ys
        → AppendsFront a c (xs ++ ys) }
    ensures front_longer { (a b : Option (List ℕ)) (xs ys : List ℕ) → AppendsFront a b xs
        → AppendsFront a b (xs ++ ys) }
    ensures part_front { (a b : Option (List ℕ)) (xs : List ℕ) → AppendsPart a b xs → AppendsFront a b xs }
    ensures part_later { (a b c : Option (List ℕ)) (xs ys : List ℕ) → Appends a b xs → AppendsPart b c ys
        → AppendsPart a c (xs ++ ys) }
    ensures part_longer { (a b : Option (List ℕ)) (xs ys : List ℕ) → AppendsPart a b xs → AppendsPart a b (xs ++ ys) }
    ensures front_part { (a b : Option (List ℕ)) (xs ys : List ℕ) → AppendsFront a b xs → 0 < length ys
        → AppendsPart a b (xs ++ ys) }
{}
