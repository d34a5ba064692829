// Numbers within the limits of a volume.
ghost use Rattle.std.specs.Prelude.{◌≡◌};
ghost use Rattle.volume.specs.Lawful.{file_fits};

use sector::{File, Limits};

// Whether a file may have so many pages and slots.
pub fn file_fits(x: File) -> bool
    ensures { result ≡ file_fits x }
{
    (1 <= x.pages)
        & ((x.pages <= Limits::PAGES) & ((x.pages <= x.slots) & (x.slots <= Limits::SLOTS)))
}
