//! Joins all passes of a hall into one. A turn is one command to a machine. A hall is a lock around one machine. A pass
//! is the right of one thread to make turns of the machine. After a pass has been joined into another pass, this other
//! pass has seen the turns of both.
ghost use Rattle.std.specs.Prelude.{◌≡◌, All, IfSome};
ghost use Rattle.kds_turn.specs.Passes.{HasAll};

use kds_defs::Machine;
use kds_turn::{Hall, Pass};

/// Joins all other passes into the last of `passes`, and returns this last pass. It has then seen the turns of all
/// passes. The result is `None` if `passes` aren't the passes with the numbers 1 to `last`, in this order.
pub fn join_all<M: Machine>(hall: &Hall<M>, passes: Vec<Pass<M>>, last: u32) -> Option<Pass<M>>
    requires { All (λ p. p.hall ≡ hall.now.id) passes.items }
    ensures hall { IfSome result (λ p. p.hall ≡ hall.now.id) }
    ensures all { IfSome result (HasAll last) }
{
    let mut others = passes;
    let mut joined = others.pop()?;
    if joined.by() != last {
        return None;
    }
    let mut least = last;
    while let Some(pass) = others.pop() {
        let by = pass.by();
        if by as u64 + 1 != least as u64 {
            return None;
        }
        hall.join(&mut joined, pass);
        least = by;
    }
    if least == 1 { Some(joined) } else { None }
}
