//! A hall is a lock around one machine. A turn is one command, applied to the machine. A pass is the right of one
//! thread to make turns. A seat is a handle of the hall's table. The types in this file say what is known through a
//! seat, such as the turns that it has seen. They exist only in proofs: no program makes values of them.
use kds_defs::Turn;
use std::collections::LinkedList;

/// The number of a pass, and the turns made under this number, the newest turn first.
pub struct Account {
    pub by: u32,
    pub turns: LinkedList<Turn>,
}

/// What a seat knows. `seen` are the turns that the seat has seen. `unloaded` are the turns that joined seats had seen.
/// The next time the seat loads the number of turns, the turns in `unloaded` are added to `seen`. `accounts` are the
/// seat's accounts. `busy` says whether the seat has the lock.
pub struct View {
    pub seen: LinkedList<Turn>,
    pub unloaded: LinkedList<Turn>,
    pub accounts: LinkedList<Account>,
    pub busy: bool,
}
