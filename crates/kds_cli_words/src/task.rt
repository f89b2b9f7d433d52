//! The tasks of the command line. A schedule is a recorded workload, with one request, lease command or worker step per
//! line. A journal is the event log of a run. A drill is a self-test whose input is generated from a number.

/// The task that a command line asks for.
#[derive(Clone, Copy, Debug, PartialEq, Eq)]
pub enum Task {
    /// Replays the schedule on the standard input. If `journal` is true, the run's journal is written instead of the
    /// answers.
    Replay {
        journal: bool,
    },
    /// Answers the requests of one HTTP connection, whose bytes are on the standard input.
    Answer,
    /// Checks whether the journal on the standard input is valid.
    Audit,
    /// Serves HTTP connections at `port`, from 1 to 65,535. `passes`, from 1 to 64, is the maximum number of
    /// connections that are served at once.
    Serve {
        port: u16,
        passes: u32,
    },
    /// Runs the drill with this number. The drill has 1 to 64 workers and at most 1,000,000 generated records.
    Drill {
        number: u64,
        workers: u32,
        records: u64,
    },
}
