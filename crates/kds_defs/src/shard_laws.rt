//! Laws on lists of shards. A law is a theorem, stated as the contract of a function without parameters.
ghost use Rattle.std.specs.Prelude.{◌≡◌, ◌≢◌, ◌≤◌, ◌+◌, ◌++◌, ℕ, List, length, map, slice_get};
ghost use Rattle.std.specs.List.{filter};
ghost use Rattle.kds_base.specs.Span.{Span, uniform};
ghost use Rattle.kds_defs.specs.Safe.{times_covered};
ghost use Rattle.kds_defs.specs.Shards.{Closing, ShardState, first_shards, is_open, merged_shards, split_shards};
ghost use Rattle.kds_defs.specs.Shards.{with_closed};
ghost use Rattle.kds_defs.specs.Tiled.{AreMergeable, AreNumbered, IsSplittable, IsTiled, open_times};

/// States which lists of shards have consecutive numbers, in the order of the list. The list of a stream's first shards
/// has them. The numbers stay consecutive if a shard is closed, or if shards with the next numbers are added at the
/// end. Closing a shard changes neither the length of the list nor any other shard.
pub fn numbered_shards()
    ensures first { (n start : ℕ) (ranges : List Span) → AreNumbered n (first_shards n start ranges) }
    ensures closed { (n shard : ℕ) (closing : Closing) (xs : List ShardState) → AreNumbered n xs
        → AreNumbered n (with_closed shard closing xs) }
    ensures added { (n : ℕ) (xs ys : List ShardState) → AreNumbered n xs → AreNumbered (n + length xs) ys
        → AreNumbered n (xs ++ ys) }
    ensures as_many { (shard : ℕ) (closing : Closing) (xs : List ShardState)
        → length (with_closed shard closing xs) ≡ length xs }
    ensures others { (xs : List ShardState) (shard other : ℕ) (closing : Closing) → shard ≢ other
        → slice_get (with_closed shard closing xs) other ≡ slice_get xs other }
{}

/// States when the ranges of the open shards partition the hash keys, so that each key lies in exactly one range. The
/// first shards of a stream do so. The open shards continue to do so if an open shard is split, or if two open shards
/// with adjacent ranges are merged. The definitions `times_covered` and `open_times` agree: for each key, both give the
/// number of open shards whose ranges contain the key.
pub fn tiled_shards()
    ensures first { (count start : ℕ) → 1 ≤ count → count ≤ 500 → IsTiled (first_shards 0 start (uniform count)) }
    ensures split { (xs : List ShardState) (shard hash start : ℕ) (closing : Closing) → IsSplittable xs shard hash
        → IsTiled xs
        → IsTiled (split_shards shard hash closing start xs) }
    ensures merged { (xs : List ShardState) (shard other start : ℕ) (closing : Closing) → AreMergeable xs shard other
        → IsTiled xs
        → IsTiled (merged_shards shard other closing start xs) }
    ensures times { (xs : List ShardState) (k : ℕ) → times_covered (map (λ x. x.range) (filter is_open xs)) k
        ≡ open_times xs k }
{}
