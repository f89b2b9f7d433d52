//! What the scribe, the writer of the journal (event log), knows of each live stream. A stream is live from its
//! creation until its deletion.
ghost use Rattle.std.specs.Prelude.{◌≡◌, option_map};
ghost use Rattle.kcl_sim_scribe.specs.Known.{changed, known_as, renumbered};

use kds_base::{Name, StreamNo};
use kds_defs::Entry;
use std::marker::Model;

/// A live stream: its number, its name, the last sequence number that it assigned (0 if it has assigned none), and the
/// number of its last shard.
#[derive(Drop)]
pub struct Known {
    pub no: StreamNo,
    pub name: Name,
    pub drawn: u64,
    pub shard: u64,
}

impl Model for Known {
    ghost use Rattle.kcl_sim_scribe.specs.Known as specs;

    ghost Value = { specs.Known };

    ghost view = { λ k. record { no = k.no; name = k.name; drawn = k.drawn; shard = k.shard } };
}

impl Known {
    /// Updates the last sequence number and the last shard, if the entry is a put, a split or a merge in this stream.
    fn renumber(&mut self, what: &Entry)
        ensures { self.new ≡ renumbered what.now self.old }
    {
        match what {
            Entry::Put { stream, seq, .. } => {
                if *stream == self.no {
                    self.drawn = seq.0;
                }
            }
            Entry::Split {
                stream,
                seq,
                high,
                ..
            } => {
                if *stream == self.no {
                    self.drawn = seq.0;
                    self.shard = high.0;
                }
            }
            Entry::Merged {
                stream,
                seq,
                child,
                ..
            } => {
                if *stream == self.no {
                    self.drawn = seq.0;
                    self.shard = child.0;
                }
            }
            _ => {}
        }
    }
}

/// Returns the live stream called `name`, if there is one.
pub fn find<'a>(streams: &'a [Known], name: &Name) -> Option<&'a Known>
    ensures { option_map (λ k. k.now) result ≡ known_as name.now streams.now }
{
    streams.iter().find(|known| known.name == *name)
}

/// Updates the live streams after an entry. A stream that the entry deletes is removed. Entries that create a stream
/// aren't handled here.
pub fn change(streams: &mut Vec<Known>, what: &Entry)
    ensures { streams.new.items ≡ changed what.now streams.old.items }
{
    for i in 0..streams.len() {
        streams[i].renumber(what);
    }
    if let Entry::Gone { stream } = what {
        streams.retain(|known| *stream != known.no);
    }
}
