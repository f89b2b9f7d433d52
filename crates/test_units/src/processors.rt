//! A test of the ready-made processors: what they keep of two batches, and which checkpoint they ask for.
use crate::rows::key;
use kcl_consumer::{Maker, Processor};
use kcl_defs::Ask;
use kcl_proc::{Kind, Lines, Stock, Tally};
use kds_base::{Checkpoint, Moment, Octets, Seq};
use kds_defs::Stored;
use std::test::Fail;

/// Returns a record with the sequence number `seq`, two bytes of payload, and a key of one byte.
fn record(rt: &HostRuntime, seq: u64) -> Result<Stored, Fail> {
    Ok(Stored {
        seq: Seq(seq),
        arrival: Moment::start(),
        key: Octets::of(rt.alloc(), b"a")?,
        payload: Octets::of(rt.alloc(), b"hi")?,
    })
}

#[test]
fn stock_processors(rt: HostRuntime) -> Result<(), Fail> {
    let first = key(0);
    for (mut kind, asked) in [
        (Kind::Tally, Ask::Last),
        (Kind::Lines, Ask::At(Seq(3))),
        (Kind::Users, Ask::None),
    ] {
        let mut stock = kind.make(rt.alloc(), first)?;
        stock.initialize(first, Checkpoint::TrimHorizon)?;
        stock.process_records(&[record(&rt, 1)?, record(&rt, 2)?])?;
        assert_eq!(rt; stock.process_records(&[record(&rt, 3)?])?, asked);
        stock.shard_ended()?;
        stock.lease_lost()?;
        match stock {
            Stock::Tally(tally) => assert_eq!(rt; (tally.records(), tally.bytes()), (3, 6)),
            Stock::Lines(lines) => assert_eq!(rt;
                lines.numbers(),
                [Seq(1), Seq(2), Seq(3)].as_slice()
            ),
            Stock::Users(users) => assert_eq!(rt; users.inner().count(), 3),
        }
    }
    assert_eq!(rt; Tally::new().records(), 0);
    assert!(rt; Lines::new(rt.alloc()).numbers().is_empty());
    Ok(())
}
