//! Laws about the journal, the event log of all streams and leases: a command for one stream or for a lease doesn't
//! change the other streams.
ghost use Rattle.std.specs.Prelude.{◌≡◌, ◌∷◌, [], ℕ, List, None};
ghost use Rattle.kds_defs.specs.Journal.{Journal, Line};
ghost use Rattle.kds_defs.specs.Subjects.{stream_of};
ghost use Rattle.kds_stream.specs.Value.{StreamValue};
ghost use Rattle.kds_service.specs.Shown.{ServiceValue, ShowsAll, StaysShown, StaysShownWith, StaysShownWithout};
ghost use Rattle.kds_service.specs.Shown.{service};

use kds_stream::other_lines;

/// Streams show a journal if they are in the state to which the lines of the journal lead. This law states which
/// journal the streams of a service show after a command for one stream. Suppose that the streams show a journal, and
/// that further lines about one stream are then added to this journal. If this stream is replaced by a stream that
/// shows the longer journal, all streams show the longer journal. If the only further line creates a stream, and a
/// stream that shows the longer journal is added at the end, all streams show the longer journal. If the only further
/// line deletes a stream, the other streams show the longer journal. A service without streams shows the empty journal.
pub fn others()
    ensures changed { (c b n i : ℕ) (vs : List StreamValue) (x v : StreamValue) (log : Journal) (lines : List Line)
        → ShowsAll (service c b n vs) log → StaysShown c b n vs log i x v lines }
    ensures added { (c b n actor count : ℕ) (name : List ℕ) (vs : List StreamValue) (v : StreamValue) (log : Journal)
        → ShowsAll (service c b n vs) log → StaysShownWith c b n vs log v actor name count }
    ensures removed { (c b n actor i : ℕ) (vs : List StreamValue) (x : StreamValue) (log : Journal)
        → ShowsAll (service c b n vs) log → StaysShownWithout c b n vs log i x actor }
    ensures empty { (c b : ℕ) → ShowsAll (service c b 0 []) [] }
{
    other_lines();
}

/// States that a journal line about a lease doesn't change the streams of a service. Streams show a journal if they are
/// in the state to which the lines of the journal lead. Suppose that the streams of a service show a journal, and that
/// a further line is about a lease and has the service's clock as its time. The streams then also show the journal with
/// the further line.
pub fn lease_lines()
    ensures { (w : ServiceValue) (log : Journal) (line : Line) → ShowsAll w log → line.clock ≡ w.clock
        → stream_of line.what ≡ None → ShowsAll w (line ∷ log) }
{
    other_lines();
}
