// A session's marks and reading holds, and whether they fit the volume: what refusal 2 asks.
#![tactic(auto)]

mod holds;
mod holds_fit;
mod marks;
mod marks_fit;

ghost use Rattle.std.specs.Prelude.{◌≡◌};
ghost use Rattle.volume.specs.Volumes.{view};
ghost use Rattle.rules.specs.Sessions.{session_fits};

use crate::holds_fit::holds_fit;
use crate::marks_fit::marks_fit;
pub use holds::{is_read_by_other, is_reading, with_reading, without_client, without_reading};
use interface::Session;
pub use marks::{is_active, set_active};
use volume::FormedVolume;

// Whether the session fits the volume. Ruled out: what `marks_fit` and `holds_fit` name.
// Not inlined: it is long, and what it keeps would lie on the stack under the test of the volume.
#[inline(never)]
pub fn session_fits(v: FormedVolume<'_>, s: Session) -> bool
    ensures { result ≡ session_fits (view v.entry.bytes.now) s }
{
    marks_fit(v, s) && holds_fit(v, s)
}
