//! Laws about the finding, which is what is found at the beginning of a connection's bytes (`IsFound`). A law is a
//! theorem, stated as the contract of an empty function.
ghost use Rattle.std.specs.Prelude.{◌≡◌, ◌≢◌, ◌++◌, [], List, ℕ};
ghost use Rattle.kds_head.specs.declared.found.Found.{Found};
ghost use Rattle.kds_head.specs.Find.{IsFound, IsWithinLimits};

/// The same bytes have at most one finding (`IsFound`).
pub fn one_finding()
    ensures { (bytes : List ℕ) (found other : Found) → IsFound bytes found → IsFound bytes other → found ≡ other }
{}

/// Once the finding is something other than `Need`, further bytes don't change it. So it doesn't matter in which pieces
/// the bytes arrive.
pub fn decided_stays()
    ensures { (bytes more : List ℕ) (found : Found) → IsFound bytes found → found ≢ Found.Need
        → IsFound (bytes ++ more) found }
{}

/// If the finding is `Need`, fewer than `HEAD_BYTES` bytes have arrived so far. If it is a refusal, its status is one
/// of those in `is_refusal`. The sizes of a whole head and of its body are within their limits (`IsBounded`).
pub fn found_within_limits()
    ensures { (bytes : List ℕ) (found : Found) → IsFound bytes found → IsWithinLimits bytes found }
{}

/// Before the first byte arrives, the finding is `Need`.
pub fn no_bytes_need_more()
    ensures { IsFound [] Found.Need }
{}
