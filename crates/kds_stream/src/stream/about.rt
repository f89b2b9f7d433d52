//! Describes a stream as a whole (DescribeStream and DescribeStreamSummary).
ghost use Rattle.std.specs.Prelude.{◌≡◌, IfOk};
ghost use Rattle.kds_defs.specs.Histories.{answer_of};
ghost use Rattle.kds_defs.specs.Journal.{Journal};
ghost use Rattle.kds_defs.specs.Lawful.{IsLimit};
ghost use Rattle.kds_defs.specs.Listings.{describe, summary};
ghost use Rattle.kds_stream.specs.Showing.{Shows};

use crate::stream::Stream;
use kds_base::{Memory, ShardNo};
use kds_defs::{About, Answer, Reply};
use std::alloc::Global;

impl Stream {
    /// Returns the stream's name, its creation time, and its retention period in hours.
    fn about(&self, alloc: Global) -> Result<About, Memory>
        ensures { IfOk result (λ a. a ≡ record {
          name = self.now.name;
          made = self.now.made_at;
          hours = self.now.hours;
        }) }
    {
        let name = self.name.copy(alloc)?;
        Ok(About {
            name,
            made: self.made_at,
            hours: self.hours,
        })
    }

    /// Returns the description of the stream with a page of its listed (unexpired) shards (Kinesis API Reference,
    /// DescribeStream). The page begins after the shard `after`, and has at most `limit` shards. The reply also says
    /// whether more listed shards follow the page.
    pub fn describe(
        &self,
        alloc: Global,
        after: Option<ShardNo>,
        limit: u32,
    ) -> Result<Answer, Memory>
        requires { IsLimit limit }
        ensures { (log : Journal) → Shows self.now log
            → IfOk result (λ a. a ≡ answer_of (describe log self.now.clock self.now.no after limit)) }
    {
        let about = self.about(alloc)?;
        let (shards, more) = self.tree.listed(self.cut, after, limit)?;
        Ok(Ok(Reply::Described {
            about,
            shards,
            more,
        }))
    }

    /// Returns the description of the stream, and the number of its open shards (Kinesis API Reference,
    /// DescribeStreamSummary).
    pub fn summary(&self, alloc: Global) -> Result<Answer, Memory>
        ensures { (log : Journal) → Shows self.now log → IfOk result (λ a. a ≡ answer_of (summary log self.now.no)) }
    {
        let about = self.about(alloc)?;
        let open_shards = self.open_count();
        Ok(Ok(Reply::Summary { about, open_shards }))
    }
}
