// The one store: every call but format changes a volume by it alone.
ghost use Rattle.std.specs.Prelude.{◌≡◌, ◌+◌, ◌*◌, ◌≤◌, length};
ghost use Rattle.sector.specs.Sectors.{store_at};

use crate::layout::Sector;

// Sector s of the volume becomes src.
// Byte by byte: `copy_from_slice` calls `memmove` for a page that the caller lends, and the library needs `memcpy` and `memset` alone.
pub fn store(v: &mut [u8], s: usize, src: &[u8; Sector::SIZE])
    requires { (256 * s + 256 ≤ length v.old) × (s ≤ 65536) }
    ensures { v.new ≡ store_at v.old s src.now }
{
    let at = Sector::SIZE * s;
    let part = &mut v[at..at + Sector::SIZE];
    for (i, x) in part.iter_mut().enumerate() {
        *x = src[i];
    }
}
