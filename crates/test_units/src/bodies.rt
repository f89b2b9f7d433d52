//! Tests of request bodies: which bodies are accepted as JSON (RFC 8259), and which member counts if several members of
//! a JSON object have the same name.
use kds_base::{Memory, Octets};
use kds_defs::Command;
use kds_json::ask;
use kds_json_members::FaultKind;
use std::alloc::Global;
use std::test::Fail;

/// Reads `body` as the body of a DeleteStream request. Returns the stream's name or, if the body is refused, the kind
/// of its fault.
fn named(alloc: Global, body: &[u8]) -> Result<Result<Octets, FaultKind>, Memory> {
    match ask(alloc, b"DeleteStream".as_slice(), body)? {
        Ok(Command::Delete { name }) => Ok(Ok(Octets::of(alloc, name.bytes())?)),
        Ok(_) => Ok(Err(FaultKind::Unknown)),
        Err(fault) => Ok(Err(fault.kind)),
    }
}

/// Makes a body with a stream name and a second member whose value is `value`. Returns `Some(true)` if the body is
/// accepted, `Some(false)` if it is refused with the fault `Serialization`, and `None` for any other result.
fn is_read(alloc: Global, value: &[u8]) -> Result<Option<bool>, Memory> {
    let mut body = Octets::of(alloc, b"{\"StreamName\":\"s\",\"x\":".as_slice())?;
    body.extend(value)?;
    body.extend(b"}".as_slice())?;
    match named(alloc, body.as_slice())? {
        Ok(name) => if name.as_slice() == b"s".as_slice() {
            Ok(Some(true))
        } else {
            Ok(None)
        },
        Err(FaultKind::Serialization) => Ok(Some(false)),
        Err(_) => Ok(None),
    }
}

#[test]
fn a_value_is_read_exactly_if_it_is_json(rt: HostRuntime) -> Result<(), Fail> {
    let cases: [(&str, bool); 54] = [
        ("", false),
        (" \t\r\n", false),
        (" \t\r\nnull \t\r\n", true),
        ("null\u{c}", false),
        ("\u{feff}1", false),
        ("nul", false),
        ("True", false),
        ("false", true),
        ("null null", false),
        ("{}]", false),
        ("0", true),
        ("-0", true),
        ("-0.0", true),
        ("00", false),
        ("+1", false),
        ("-", false),
        ("1.", false),
        (".5", false),
        ("1e", false),
        ("1E+2", true),
        ("1e400", false),
        ("-1e400", false),
        ("1e-400", true),
        ("18446744073709551615", true),
        ("18446744073709551616", true),
        ("-9223372036854775808", true),
        ("-9223372036854775809", true),
        ("NaN", false),
        ("\"", false),
        ("\"\n\"", false),
        ("\"\u{7f}\"", true),
        ("\"\\n\\/\\u0000\"", true),
        ("\"\\x\"", false),
        ("\"\\u00G0\"", false),
        ("\"\\ud83d\\ude00\"", true),
        ("\"\\ud83d\"", false),
        ("\"\\ude00\"", false),
        ("\"\\ud83d\\u0041\"", false),
        ("\"\\ude00\\ud83d\"", false),
        ("[]", true),
        ("[1, 2]", true),
        ("[1,]", false),
        ("[1 2]", false),
        ("[1}", false),
        ("{}", true),
        ("{\"\":true}", true),
        ("{\"a\"}", false),
        ("{\"a\":1,}", false),
        ("{a:1}", false),
        ("{1:1}", false),
        ("{\"a\":1,\"a\":2}", true),
        ("{\"a\":1,\"b\":3,\"\\u0061\":\"x\"}", true),
        ("{\"\\u0062\":[1],\"a\":null}", true),
        ("{\"\\ud83d\":1}", false),
    ];
    for (text, want) in cases {
        let read = is_read(rt.alloc(), text.as_bytes())?;
        assert_eq!(rt; read, Some(want), "of {text}");
    }
    Ok(())
}

/// A body is a single JSON object. If several of its members have the same name, the last one counts, even if its value
/// is null or has the wrong type.
#[test]
fn the_last_member_of_a_name_counts(rt: HostRuntime) -> Result<(), Fail> {
    let cases: [(&str, Result<&str, FaultKind>); 22] = [
        ("{\"StreamName\":\"a\"}", Ok("a")),
        (" \t\r\n{ \"StreamName\" : \"a\" } \t\r\n", Ok("a")),
        ("{\"StreamName\":\"\\u0061\\u002db\"}", Ok("a-b")),
        ("{\"StreamName\":\"a\",\"StreamName\":\"b\"}", Ok("b")),
        (
            "{\"StreamName\":\"a\",\"x\":1,\"Stream\\u004eame\":\"b\"}",
            Ok("b"),
        ),
        ("{\"StreamName\":null,\"StreamName\":\"a\"}", Ok("a")),
        ("{\"StreamName\":1,\"StreamName\":\"a\"}", Ok("a")),
        (
            "{\"StreamName\":\"a\",\"StreamName\":null}",
            Err(FaultKind::Missing),
        ),
        (
            "{\"StreamName\":\"a\",\"StreamName\":[]}",
            Err(FaultKind::Invalid),
        ),
        ("{\"StreamName\":\"\\u0000\"}", Err(FaultKind::Invalid)),
        ("{\"streamName\":\"a\"}", Err(FaultKind::Missing)),
        ("{\"\":\"a\"}", Err(FaultKind::Missing)),
        ("{\"x\":{\"StreamName\":\"a\"}}", Err(FaultKind::Missing)),
        ("{}", Err(FaultKind::Missing)),
        ("", Err(FaultKind::Serialization)),
        ("null", Err(FaultKind::Serialization)),
        ("\"StreamName\"", Err(FaultKind::Serialization)),
        ("[]", Err(FaultKind::Serialization)),
        ("[{\"StreamName\":\"a\"}]", Err(FaultKind::Serialization)),
        (
            "\u{feff}{\"StreamName\":\"a\"}",
            Err(FaultKind::Serialization),
        ),
        ("{\"StreamName\":\"a\"}{}", Err(FaultKind::Serialization)),
        ("{\"StreamName\":\"a\"", Err(FaultKind::Serialization)),
    ];
    for (body, want) in cases {
        match (named(rt.alloc(), body.as_bytes())?, want) {
            (Ok(name), Ok(want)) => {
                let given = String::from_utf8_lossy(rt.alloc(), name.as_slice())?;
                assert_eq!(rt; given.as_str(), want, "of {body}");
            }
            (Err(kind), Err(want)) => assert_eq!(rt; kind, want, "of {body}"),
            (Ok(_), Err(want)) => assert!(rt; false, "a name for {want:?}, of {body}"),
            (Err(kind), Ok(want)) => assert!(rt; false, "{kind:?} for {want}, of {body}"),
        }
    }
    Ok(())
}

/// A value with bytes that aren't UTF-8 is refused, whether these bytes are inside or outside a JSON string.
#[test]
fn bytes_that_are_no_text_are_no_value(rt: HostRuntime) -> Result<(), Fail> {
    let cases: [(&[u8], bool); 5] = [
        (&[255], false),
        (&[34, 255, 34], false),
        (&[34, 0xc3, 0xa9, 34], true),
        (&[34, 0xc0, 0x80, 34], false),
        (&[34, 0xed, 0xa0, 0xbd, 34], false),
    ];
    for (bytes, want) in cases {
        let read = is_read(rt.alloc(), bytes)?;
        assert_eq!(rt; read, Some(want), "of {bytes:?}");
    }
    Ok(())
}

/// A body may have at most 127 levels of nested arrays or objects. The body itself is the first level.
#[test]
fn a_body_has_at_most_127_levels(rt: HostRuntime) -> Result<(), Fail> {
    for (open, close) in [("[", "]"), ("{\"a\":", "}")] {
        for (levels, want) in [(1, true), (127, true), (128, false), (129, false)] {
            let mut text = Octets::new(rt.alloc());
            for _ in 1..levels {
                text.extend(open.as_bytes())?;
            }
            text.extend(b"0".as_slice())?;
            for _ in 1..levels {
                text.extend(close.as_bytes())?;
            }
            let read = is_read(rt.alloc(), text.as_slice())?;
            assert_eq!(rt; read, Some(want), "at {levels} of {open}");
        }
    }
    Ok(())
}
