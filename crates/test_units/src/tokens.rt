//! A test of the tokens of shard iterators: how a token is written, and how it is read.
use kds_base::{Moment, ShardNo, StreamNo};
use kds_defs::Iter;
use kds_token::{read_iter, write_iter};
use std::test::Fail;

#[test]
fn texts_of_iterators(rt: HostRuntime) -> Result<(), Fail> {
    let iter = Moment::new(2000).map(|issued| Iter {
        stream: StreamNo(1),
        shard: ShardNo(0),
        position: 3,
        issued,
    });
    let cases = [
        ("S0kxOjE6MDozOjIwMDA=", iter),
        // Base64 of `KI1:1:0:0:4611686018427387904`: the time of issue, 2^62 ms, is above the greatest moment
        ("S0kxOjE6MDowOjQ2MTE2ODYwMTg0MjczODc5MDQ=", None),
        // Base64 of `KI1:18446744073709551616:0:0:0`: the stream's number, 2^64, is above the greatest `u64`
        ("S0kxOjE4NDQ2NzQ0MDczNzA5NTUxNjE2OjA6MDow", None),
    ];
    for (text, want) in cases {
        let read = read_iter(rt.alloc(), text.as_bytes())?;
        assert_eq!(rt; read, want, "of {text}");
        if let Some(iter) = want {
            let written = write_iter(rt.alloc(), &iter)?;
            assert!(rt; written.as_slice() == text.as_bytes(), "of {text}");
        }
    }
    Ok(())
}
