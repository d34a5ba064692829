// Whether the reading holds of a session fit the volume: what M-102 adds to refusal 2.
ghost use Rattle.std.specs.Prelude.{◌≡◌, not, ◌||◌, ◌≤◌};
ghost use Rattle.volume.specs.Views.{View};
ghost use Rattle.volume.specs.Volumes.{view};
ghost use Rattle.rules.specs.Sessions.{is_reading, hold_fits, client_holds_fit, holds_fit};

use crate::holds::{is_reading, none_reads};
use crate::marks::is_active;
use interface::{ClientNumber, FileNumber, Session};
use volume::FormedVolume;

// Whether client k may hold file f for reading: it is marked, and the file exists and has no holder.
fn hold_fits(v: FormedVolume<'_>, s: Session, k: ClientNumber, f: FileNumber) -> bool
    ensures { result ≡ hold_fits (view v.entry.bytes.now) s k.number f.number }
{
    if !is_active(s, k) {
        return false;
    }
    let Some(x) = v.tabled().find_file(f.number) else {
        return false;
    };
    x.holder() == 0
}

// Whether client k doesn't hold file f for reading, or may.
fn noted_fits(v: FormedVolume<'_>, s: Session, k: ClientNumber, f: FileNumber) -> bool
    ensures { result ≡ (not (is_reading s k.number f.number) || hold_fits (view v.entry.bytes.now) s k.number f.number) }
{
    !is_reading(s, k, f) || hold_fits(v, s, k, f)
}

// Whether client k may hold for reading every file that it so holds. It looks no further than the last of them, and by `..`: over
// all 16 files a `begin` on the small volume takes 2179 instructions (here 1203, in Rust 1454), by `..=` one on the largest 8666 (here
// 7972, in Rust 8440), so each misses its bar.
fn client_holds_fit(v: FormedVolume<'_>, s: Session, k: ClientNumber) -> bool
    ensures { result ≡ client_holds_fit (view v.entry.bytes.now) s k.number }
{
    // `as`: a word has at most 16 leading zeros, so `try_from` would only add an `unwrap`.
    let end = FileNumber::LAST + 1 - s.reading[k.index()].leading_zeros() as u8;
    (1..end).all(
        |f|
            requires { (1 ≤ f) × (f ≤ 16) }
        { noted_fits(v, s, k, FileNumber { number: f }) },
    )
}

// Whether every client may hold what it holds for reading. Ruled out: a hold of a held file accepted
// (`must-fail/held_file_accepted`); one client's holds alone looked at (`must-fail/holds_of_client_1`), or a client's last one
// passed over (`must-fail/last_hold_passed_over`).
pub fn holds_fit(v: FormedVolume<'_>, s: Session) -> bool
    ensures { result ≡ holds_fit (view v.entry.bytes.now) s }
{
    none_reads(s)
        || (1..=ClientNumber::LAST).all(
            |k|
                requires { (1 ≤ k) × (k ≤ 4) }
            { client_holds_fit(v, s, ClientNumber { number: k }) },
        )
}
