//! The stages of a consumer.
use kcl_defs::Why;
use kds_defs::Target;

/// The stage of a consumer: what it does next, or the reason why it is over.
#[derive(Clone, Copy, Debug, PartialEq, Eq)]
pub enum ConsumerStage {
    Opening,
    Starting,
    Filling,
    Holding,
    Giving,
    Marking(Target),
    Ending,
    MarkingEnd,
    Leaving(Why),
    Over(Why),
}
