//! What the commands on leases can ask about the shards of the stream service.
use kcl_leases::Shards;
use kds_base::ShardRef;
use kds_defs::{Origin, Shard};
use kds_service::{Service, lease_lines};

/// The shards of the stream service `service`, as the commands on leases see them.
#[derive(Clone, Copy)]
pub struct ServiceShards<'a> {
    pub service: &'a Service,
}

impl<'a> Shards for ServiceShards<'a> {
    ghost use Rattle.kds_service.specs.Keyed.{is_listed_in};
    ghost use Rattle.kds_service.specs.Shown.{ShowsAll};

    ghost clock = { λ s. s.service.now.clock };

    ghost shows = { λ s. ShowsAll s.service.now };

    ghost lists = { λ s. is_listed_in s.service.now.streams };

    fn is_listed(&self, key: ShardRef) -> bool {
        self.service.is_listed(key)
    }

    fn shard(&self, key: ShardRef) -> Option<&Shard> {
        self.service.shard(key)
    }

    fn position(&self, key: ShardRef, from: Origin) -> u64 {
        self.service.position(key, from)
    }

    fn lease_lines(&self) {
        lease_lines();
    }
}
