// The tests of open, for writing and for reading.
#![tactic(auto, using(crate::proofs::VerdictLaws::holder_low), unfolding(lists::specs::Lists::first, rules::specs::Refusals::tests))]

ghost use Rattle.std.specs.Prelude.{◌≡◌, ◌≤◌, true, IfOk};
ghost use Rattle.lists.specs.Lists.{first};
ghost use Rattle.sector.specs.Contents.{Header};
ghost use Rattle.volume.specs.Views.{View};
ghost use Rattle.volume.specs.Volumes.{view};
ghost use Rattle.volume.specs.Sound.{sound};
ghost use Rattle.rules.specs.Plans.{open_file, open_read};
ghost use Rattle.rules.specs.Refusals.{held_by_other, open_tests, open_read_tests, tests};
ghost use Rattle.checks.specs.Verdicts.{number_of};

use crate::call::check_active;
use crate::caller::{Caller, Opening};
use interface::{ClientNumber, Refusal, Session};
use sessions::{is_active, is_read_by_other};
use volume::VolumeFile;

// Whether an active client other than the caller holds the file for writing. A holder is at most 4 where the whole volume is sound,
// which the caller knows and the file doesn't.
fn held_by_other(c: Caller<'_>, x: VolumeFile<'_>) -> bool
    requires { ((view x.volume.bytes.now).headers x.number).holder ≤ 4 }
    ensures { result ≡ held_by_other (view x.entry.volume.bytes.now) c.entry.session c.entry.client.number x.entry.number }
{
    let h = x.holder();
    h != 0 && h != c.client.number && is_active(c.session, ClientNumber { number: h })
}

// Tests 6 and 7 of open for reading: file f exists, and no other active client holds it for writing.
fn check_no_writer(c: Caller<'_>, f: u8) -> Result<VolumeFile<'_>, Refusal>
    ensures tested { number_of result ≡ first (open_read_tests (view c.entry.client.volume.bytes.now) c.entry.session c.entry.client.number f) }
    ensures same { IfOk result (λ x. (x.number ≡ f) × (x.volume.bytes.now ≡ c.entry.client.volume.bytes.now)) }
{
    let w = c.client.volume.tabled();
    let x = w.find_file(f).ok_or(Refusal::NoFile)?;
    if held_by_other(c, x) {
        return Err(Refusal::FileInUse);
    }
    Ok(x)
}

// Tests 6 and 7 of open for writing: no other client reads the file, either.
fn check_free(c: Caller<'_>, f: u8) -> Result<VolumeFile<'_>, Refusal>
    ensures tested { number_of result ≡ first (open_tests (view c.entry.client.volume.bytes.now) c.entry.session c.entry.client.number f) }
    ensures same { IfOk result (λ x. (x.number ≡ f) × (x.volume.bytes.now ≡ c.entry.client.volume.bytes.now)) }
{
    let x = check_no_writer(c, f)?;
    if is_read_by_other(c.session, c.client.number, x.in_session()) {
        return Err(Refusal::FileInUse);
    }
    Ok(x)
}

// The tests of open for writing. They and those of open for reading stay two functions: their contracts name different tests. Ruled
// out: a file that another client reads accepted (`rules/must-fail/write_beside_reader`); the client's own reading hold taken for
// another's (`must-fail/own_hold_excludes`).
pub fn check_open(v: &[u8], s: Session, k: u8, f: u8) -> Result<Opening<'_>, Refusal>
    ensures tested { number_of result ≡ first (tests (sound v.now) (view v.now) s (open_file k f)) }
    ensures same { IfOk result (λ o. (o.client.number ≡ k) × (o.file.number ≡ f) × (o.file.volume.bytes.now ≡ v.now)) }
{
    let c = check_active(v, s, k)?;
    let file = check_free(c, f)?;
    Ok(Opening {
        client: c.client.in_session(),
        file,
    })
}

// The tests of open for reading. Ruled out: a file that another active client writes accepted
// (`rules/must-fail/read_beside_writer`); one that others read refused (`rules/must-fail/readers_exclude`); another file handed on
// (`must-fail/file_1_opened`).
pub fn check_open_read(v: &[u8], s: Session, k: u8, f: u8) -> Result<Opening<'_>, Refusal>
    ensures tested { number_of result ≡ first (tests (sound v.now) (view v.now) s (open_read k f)) }
    ensures same { IfOk result (λ o. (o.client.number ≡ k) × (o.file.number ≡ f) × (o.file.volume.bytes.now ≡ v.now)) }
{
    let c = check_active(v, s, k)?;
    let file = check_no_writer(c, f)?;
    Ok(Opening {
        client: c.client.in_session(),
        file,
    })
}
