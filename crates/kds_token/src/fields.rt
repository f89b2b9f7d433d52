//! Writes and parses the fields of a token. Colons separate the fields.
ghost use Rattle.std.specs.Prelude.{◌≡◌, ◌≤◌, ◌+◌, ◌++◌, decimal, option_map};
ghost use Rattle.arrayvec.specs.ArrayString.{array_string_len};
ghost use Rattle.kds_token.specs.Fields.{field};

use arrayvec::ArrayString;
use itoa::Buffer;
use memchr::memchr;

/// Splits the text at its first colon, and returns the parts before and after this colon. Returns `None` if the text
/// has no colon.
pub fn split_at_colon(text: &[u8]) -> Option<(&[u8], &[u8])>
    ensures { option_map (λ p. (p.0.now, p.1.now)) result ≡ field text.now }
{
    match memchr(b':', text) {
        Some(at) => {
            let (front, _) = text.split_at(at);
            let (_, back) = text.split_at(at + 1);
            Some((front, back))
        }
        None => None,
    }
}

/// Appends the number `n` to `text` in decimal. Precondition: `text` has space for 20 more characters.
pub fn put_number(text: &mut ArrayString<96>, n: u64)
    requires { array_string_len text.old ≤ 76 }
    ensures bytes { text.new.bytes ≡ text.old.bytes ++ decimal n }
    ensures len { array_string_len text.new ≤ array_string_len text.old + 20 }
{
    let mut digits = Buffer::new();
    text.push_str(digits.format(n));
}
