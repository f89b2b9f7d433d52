//! Reads the text of an origin, which says where reading of a shard begins.
ghost use Rattle.std.specs.Prelude.{◌≡◌};
ghost use Rattle.kcl_script_fields.specs.Origins.{time_of, origin_of};

use crate::fields::field;
use kds_base::Moment;
use kds_defs::Origin;

/// Reads the text `time M` as an origin, where M is a moment in milliseconds.
fn time(text: &[u8]) -> Option<Origin>
    ensures { result ≡ time_of text.now }
{
    let (word, rest) = field(text)?;
    if word == b"time".as_slice() {
        let at = Moment::read(rest)?;
        Some(Origin::Time(at))
    } else {
        None
    }
}

/// Reads the text of an origin: `latest`, or `time M`, where M is a moment in milliseconds.
pub fn origin(text: &[u8]) -> Option<Origin>
    ensures { result ≡ origin_of text.now }
{
    if text == b"latest".as_slice() {
        Some(Origin::Latest)
    } else {
        time(text)
    }
}
