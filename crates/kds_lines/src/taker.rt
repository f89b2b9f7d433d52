//! The trait for consumers of an input's lines.
ghost use Rattle.std.specs.Prelude.{◌≡◌, ℕ, List, [], true, false, IfOk, OnErr};
ghost use Rattle.kds_lines.specs.Taking.{Goes, Breaks};

use kds_base::{Memory, Octets};
use std::alloc::Global;

/// A consumer that takes the lines of an input, one after another, and produces output for them.
pub trait Taker {
    /// States that the taker took the given lines, in this order, and took no other lines.
    ghost took: { Self → List (List ℕ) → Type 0 };

    /// States that the taker took the given lines completely, and the given next line only in part, because memory ran
    /// out.
    ghost broke: { Self → List (List ℕ) → List ℕ → Type 0 };

    /// States that a taker, after it has taken the given lines, stops the reading at the given next line.
    ghost refuses: { List (List ℕ) → List ℕ → Type 0 };

    /// The whole output of a taker for the given lines, as one text.
    ghost output: { List (List ℕ) → List ℕ };

    ghost nothing: { output [] ≡ [] };

    /// Takes the line `text` (without its line feed), and appends the output for this line to `to`. Returns whether the
    /// reading of the input continues. If the result is `false`, the line isn't taken and nothing is appended. If
    /// memory runs out, nothing is appended. The line may then have been taken completely, in part, or not at all.
    fn take(&mut self, alloc: Global, text: &[u8], to: &mut Octets) -> Result<bool, Memory>
        ensures goes { IfOk result (λ more. more ≡ true → (lines : List (List ℕ)) → took self.old lines
            → Goes (took self.new) output lines text.now to.old to.new) }
        ensures stops { IfOk result (λ more. more ≡ false → (lines : List (List ℕ)) → took self.old lines
            → took self.new lines × refuses lines text.now) }
        ensures silent { IfOk result (λ more. more ≡ false → to.new ≡ to.old) }
        ensures breaks { OnErr result ((lines : List (List ℕ)) → took self.old lines
            → Breaks (took self.new) (broke self.new) output lines text.now) }
        ensures same { OnErr result (to.new ≡ to.old) };
}
