//! Tests of hash-key ranges, of the hashes of partition keys, and of numbers as decimal text.
use kds_base::{Octets, Range, hash_of, read_u64, read_u128, write_u128};
use std::test::Fail;

#[test]
fn three_uniform_ranges(rt: HostRuntime) -> Result<(), Fail> {
    let ranges = Range::uniform(rt.alloc(), 3)?;
    let starts: [u128; 3] = [
        0,
        113427455640312821154458202477256070485,
        226854911280625642308916404954512140970,
    ];
    assert_eq!(rt; ranges.as_slice().len(), 3);
    for (range, start) in ranges.as_slice().iter().zip(starts) {
        assert_eq!(rt; range.start, start);
    }
    Ok(())
}

#[test]
fn splits_and_joins(rt: HostRuntime) -> Result<(), Fail> {
    let all = Range::new(0, u128::MAX).ok_or("a range")?;
    assert_eq!(rt; all.split(0), None);
    for at in [1, 1000, u128::MAX] {
        let parts = all.split(at);
        assert!(rt; parts.is_some(), "at {at}");
        if let Some((lower, upper)) = parts {
            assert_eq!(rt; lower.join(&upper), Some(all), "at {at}");
            assert_eq!(rt; upper.join(&lower), Some(all), "at {at}");
            assert_eq!(rt; lower.join(&all), None, "at {at}");
        }
    }
    Ok(())
}

/// Checks the hashes of four partition keys, which are strings from the MD5 test suite (RFC 1321, section A.5).
#[test]
fn hashes_of_the_standard(rt: HostRuntime) -> Result<(), Fail> {
    let vectors: [(&str, u128); 4] = [
        ("", 0xd41d8cd98f00b204e9800998ecf8427e),
        ("a", 0x0cc175b9c0f1b6a831c399e269772661),
        ("abc", 0x900150983cd24fb0d6963f7d28e17f72),
        ("message digest", 0xf96b697d7cb7938d525a2f31aaf161d0),
    ];
    for (key, hash) in vectors {
        let octets = Octets::of(rt.alloc(), key.as_bytes())?;
        assert_eq!(rt; hash_of(&octets), hash, "of {key}");
    }
    Ok(())
}

#[test]
fn texts_of_numbers(rt: HostRuntime) -> Result<(), Fail> {
    let texts: [(&str, Option<u128>); 7] = [
        ("", None),
        ("0", Some(0)),
        ("00", None),
        ("01", None),
        ("+1", None),
        ("340282366920938463463374607431768211455", Some(u128::MAX)),
        ("340282366920938463463374607431768211456", None),
    ];
    for (text, number) in texts {
        assert_eq!(rt; read_u128(text.as_bytes()), number, "of {text}");
        if let Some(n) = number {
            let mut written = Octets::new(rt.alloc());
            write_u128(rt.alloc(), n, &mut written)?;
            assert_eq!(rt; written.as_slice(), text.as_bytes(), "of {text}");
        }
    }
    assert_eq!(rt; read_u64(b"18446744073709551615"), Some(u64::MAX));
    assert_eq!(rt; read_u64(b"18446744073709551616"), None);
    Ok(())
}
