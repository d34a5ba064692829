// The tests of every client's call, and those of begin, commit and abort. No test relies on another call having made it.
#![tactic(auto, unfolding(lists::specs::Lists::first, rules::specs::Refusals::tests))]

ghost use Rattle.std.specs.Prelude.{◌≡◌, IfOk};
ghost use Rattle.lists.specs.Lists.{first};
ghost use Rattle.sector.specs.Contents.{Table};
ghost use Rattle.volume.specs.Views.{View};
ghost use Rattle.volume.specs.Volumes.{view};
ghost use Rattle.volume.specs.Sound.{sound};
ghost use Rattle.rules.specs.Plans.{begin, commit};
ghost use Rattle.rules.specs.Refusals.{client_tests, tests};
ghost use Rattle.checks.specs.Verdicts.{number_of};

use crate::caller::Caller;
use interface::{ClientNumber, Refusal, Session};
use sessions::{is_active, session_fits};
use soundness::sound_volume;

// Tests 1 to 3: the volume is sound, the session fits it, and client k exists.
// It becomes part of each test below, so that what it hands up isn't laid on the stack under the deepest test, that of the volume.
#[inline(always)]
fn check_client(v: &[u8], s: Session, k: u8) -> Result<Caller<'_>, Refusal>
    ensures tested { number_of result ≡ first (client_tests (sound v.now) (view v.now) s k) }
    ensures same { IfOk result (λ c. (c.client.number ≡ k) × (c.client.volume.bytes.now ≡ v.now) × (c.session ≡ s)) }
{
    let w = sound_volume(v).ok_or(Refusal::NotSound)?;
    if !session_fits(w.formed(), s) {
        return Err(Refusal::BadSession);
    }
    let client = w.formed().find_client(k).ok_or(Refusal::NoClient)?;
    Ok(Caller { client, session: s })
}

// The tests of begin. Ruled out: another client's number handed on (`must-fail/another_begins`); a client accepted that has a
// transaction running.
pub fn check_begin(v: &[u8], s: Session, k: u8) -> Result<ClientNumber, Refusal>
    ensures tested { number_of result ≡ first (tests (sound v.now) (view v.now) s (begin k)) }
    ensures same { IfOk result (λ c. c.number ≡ k) }
{
    let client = check_client(v, s, k)?.client.in_session();
    if is_active(s, client) {
        return Err(Refusal::AlreadyActive);
    }
    Ok(client)
}

// The tests of commit, and of abort. Ruled out: another client handed on than the one that calls (`must-fail/another_caller`); none
// where the tests accept.
pub fn check_active(v: &[u8], s: Session, k: u8) -> Result<Caller<'_>, Refusal>
    ensures tested { number_of result ≡ first (tests (sound v.now) (view v.now) s (commit k)) }
    ensures same { IfOk result (λ c. (c.client.number ≡ k) × (c.client.volume.bytes.now ≡ v.now) × (c.session ≡ s)) }
{
    let c = check_client(v, s, k)?;
    if is_active(s, c.client.in_session()) {
        return Ok(c);
    }
    Err(Refusal::NotActive)
}
