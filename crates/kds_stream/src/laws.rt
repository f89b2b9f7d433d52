//! The law that journal lines on other streams and on leases don't change a stream. A law is a theorem about
//! definitions. The journal is the event log of all streams and leases.
ghost use Rattle.std.specs.Prelude.{◌≡◌, ◌≢◌, ◌∷◌, Some};
ghost use Rattle.kds_defs.specs.Journal.{Line, Journal};
ghost use Rattle.kds_defs.specs.Subjects.{stream_of};
ghost use Rattle.kds_stream.specs.Showing.{Shows};
ghost use Rattle.kds_stream.specs.Value.{StreamValue};

/// States that a stream isn't changed by journal lines on other streams or on leases. A stream shows a journal if the
/// stream is in the state to which the lines of the journal lead. Suppose that a stream shows a journal, and that a
/// further line is about another stream or about a lease and has the stream's clock as its time. The stream then also
/// shows the journal with the further line.
pub fn other_lines()
    ensures { (v : StreamValue) (log : Journal) (line : Line) → Shows v log → line.clock ≡ v.clock
        → stream_of line.what ≢ Some v.no → Shows v (line ∷ log) }
{}
