// The tests of a page that is held, and those of read.
#![tactic(auto, using(crate::proofs::VerdictLaws::page_listed), unfolding(lists::specs::Lists::first, rules::specs::Refusals::tests, rules::specs::Refusals::query_tests))]

ghost use Rattle.std.specs.Prelude.{◌≡◌, [], ◌∷◌, IfOk};
ghost use Rattle.lists.specs.Lists.{first};
ghost use Rattle.sector.specs.Contents.{Table};
ghost use Rattle.volume.specs.Views.{View};
ghost use Rattle.volume.specs.Volumes.{view};
ghost use Rattle.volume.specs.Sound.{sound};
ghost use Rattle.rules.specs.Sessions.{holds_either};
ghost use Rattle.rules.specs.Plans.{read_page};
ghost use Rattle.rules.specs.Refusals.{page_missing, held_tests, read_tests, query_tests};
ghost use Rattle.checks.specs.Verdicts.{number_of};

use crate::call::check_active;
use crate::caller::Caller;
use interface::{ClientNumber, Refusal, Session};
use sessions::is_reading;
use slots::ClientPage;
use volume::VolumeFile;

// Whether client k holds the file, for writing or for reading.
pub fn holds_either(x: VolumeFile<'_>, s: Session, k: ClientNumber) -> bool
    ensures { result ≡ holds_either (view x.entry.volume.bytes.now) s k.number x.entry.number }
{
    x.holder() == k.number || is_reading(s, k, x.in_session())
}

// Tests 6 and 8: file f exists, and the caller holds it.
pub fn check_held(c: Caller<'_>, f: u8) -> Result<VolumeFile<'_>, Refusal>
    ensures tested { number_of result ≡ first (held_tests (view c.entry.client.volume.bytes.now) c.entry.session c.entry.client.number f) }
    ensures same { IfOk result (λ x. (x.number ≡ f) × (x.volume.bytes.now ≡ c.entry.client.volume.bytes.now)) }
{
    let w = c.client.volume.tabled();
    let x = w.find_file(f).ok_or(Refusal::NoFile)?;
    if !holds_either(x, c.session, c.client.in_session()) {
        return Err(Refusal::NotHeld);
    }
    Ok(x)
}

// Test 9: the file has page p.
pub fn check_page(x: VolumeFile<'_>, p: u8) -> Result<(), Refusal>
    ensures { number_of result ≡ first (page_missing (view x.entry.volume.bytes.now) x.entry.number p ∷ []) }
{
    if x.shape().pages <= p {
        return Err(Refusal::NoPage);
    }
    Ok(())
}

// Tests 6, 8 and 9.
fn check_read_page(c: Caller<'_>, f: u8, p: u8) -> Result<ClientPage<'_>, Refusal>
    ensures tested { number_of result ≡ first (read_tests (view c.entry.client.volume.bytes.now) c.entry.session c.entry.client.number f p) }
    ensures same { IfOk result (λ x. (x.client.number ≡ c.entry.client.number) × (x.client.volume.bytes.now ≡ c.entry.client.volume.bytes.now) × (x.file ≡ f) × (x.page ≡ p)) }
{
    let x = check_held(c, f)?;
    check_page(x, p)?;
    Ok(ClientPage {
        client: c.client,
        file: f,
        page: p,
    })
}

// The tests of read. Ruled out: a file that the client holds for reading refused by 8
// (`rules/must-fail/reader_not_held`); a page past the last one accepted; another page handed on (`must-fail/another_page_read`).
pub fn check_read(v: &[u8], s: Session, k: u8, f: u8, p: u8) -> Result<ClientPage<'_>, Refusal>
    ensures tested { number_of result ≡ first (query_tests (sound v.now) (view v.now) s (read_page k f p)) }
    ensures same { IfOk result (λ x. (x.client.number ≡ k) × (x.client.volume.bytes.now ≡ v.now) × (x.file ≡ f) × (x.page ≡ p)) }
{
    let c = check_active(v, s, k)?;
    check_read_page(c, f, p)
}
