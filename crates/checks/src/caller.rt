// What the tests of a call find: the client that calls, in its session, and the file that it opens.
ghost use Rattle.std.specs.Prelude.{◌≡◌, true};
ghost use Rattle.volume.specs.Volumes.{view};
ghost use Rattle.volume.specs.Sound.{sound};
ghost use Rattle.rules.specs.Sessions.{session_fits};

use interface::{ClientNumber, Session};
use volume::{VolumeClient, VolumeFile};

// A client of a volume that is sound, and a session that fits the volume. Clone and Copy alone, here and below: nobody compares two or
// prints one.
#[derive(Clone, Copy)]
pub struct Caller<'a> {
    pub client: VolumeClient<'a>,
    pub session: Session,
    ghost sound: { sound client.volume.bytes.now ≡ true },
    ghost fits: { session_fits (view client.volume.bytes.now) session ≡ true },
}

// A client's number, and a file.
#[derive(Clone, Copy)]
pub struct Opening<'a> {
    pub client: ClientNumber,
    pub file: VolumeFile<'a>,
}
