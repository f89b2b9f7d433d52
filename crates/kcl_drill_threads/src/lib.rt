//! The threads of a drill, which is a self-test. The drill's commands are generated from a number. One thread applies
//! these commands, and the others run workers.
#![tactic(auto)]

mod asking;
mod beside;
mod feeding;
mod threads;

pub use threads::crowd;
