// Whether the marks of a session fit the volume: what refusal 2 asks of each client's mark.
ghost use Rattle.std.specs.Prelude.{◌≡◌, not, ◌||◌, ◌≤◌};
ghost use Rattle.lists.specs.Lists.{every};
ghost use Rattle.sector.specs.Contents.{Table, Entry, Record};
ghost use Rattle.volume.specs.Views.{View};
ghost use Rattle.volume.specs.Volumes.{view};
ghost use Rattle.rules.specs.Sessions.{is_active, holds, mark_fits, marks_fit};

use crate::marks::is_active;
use interface::{ClientNumber, Session};
use sector::State;
use volume::{FormedVolume, VolumeClient};

// Whether the client holds the file of every entry of its record.
// A loop, since its invariant says that the entries left name files that exist; a closure knows nothing of the entry it is given.
fn entries_held(c: VolumeClient<'_>) -> bool
    ensures { result ≡ every (λ e. holds (view c.entry.volume.bytes.now) c.entry.number e.file) ((view c.entry.volume.bytes.now).records c.entry.number).entries }
{
    for e in c.entries() {
        if c.volume.tabled().file(e.file).holder() != c.number {
            return false;
        }
    }
    true
}

// Whether client k may be marked: it exists, its record is open, and it holds the files of its entries.
fn mark_fits(v: FormedVolume<'_>, k: ClientNumber) -> bool
    ensures { result ≡ mark_fits (view v.entry.bytes.now) k.number }
{
    let Some(c) = v.find_client(k.number) else {
        return false;
    };
    if c.state() != State::OPEN {
        return false;
    }
    entries_held(c)
}

// The closure's clause is the range, here and in the tests of holds: a walk over numbers that know it would be a type with laws, for
// four uses.

// Whether every marked client may be marked. Ruled out: a mark above the last client accepted (`must-fail/skips_client_4`); a
// test of the records' states alone (`rules/must-fail/stray_entry_accepted`).
pub fn marks_fit(v: FormedVolume<'_>, s: Session) -> bool
    ensures { result ≡ marks_fit (view v.entry.bytes.now) s }
{
    (1..=ClientNumber::LAST).all(
        |k|
            requires { (1 ≤ k) × (k ≤ 4) }
        {
            let k = ClientNumber { number: k };
            !is_active(s, k) || mark_fits(v, k)
        },
    )
}
