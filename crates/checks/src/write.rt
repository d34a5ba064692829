// The tests of write, and where its page goes.
#![tactic(auto, using(crate::proofs::VerdictLaws::page_listed), unfolding(lists::specs::Lists::first, rules::specs::Refusals::tests))]

ghost use Rattle.std.specs.Prelude.{◌≡◌, true, [], ◌∷◌, ◌++◌, IfOk};
ghost use Rattle.std.proofs.Math.Option.{none};
ghost use Rattle.lists.specs.Lists.{first};
ghost use Rattle.volume.specs.Views.{View};
ghost use Rattle.volume.specs.Volumes.{view};
ghost use Rattle.volume.specs.Sound.{sound};
ghost use Rattle.rules.specs.Plans.{write, chosen};
ghost use Rattle.rules.specs.Refusals.{is_new_page, no_free_slot, record_full, active_tests, write_tests, slot_tests, tests};
ghost use Rattle.checks.specs.Verdicts.{number_of};
ghost use Rattle.checks.specs.Writes.{write_found, answer_by, write_answer};

use crate::Target;
use crate::call::check_active;
use crate::caller::Caller;
use crate::page::{check_held, check_page};
use interface::{Refusal, Session};
use sector::{Limits, Sector};
use slots::{ClientPage, find_entry, free_slot};

// Tests 6, 8, 16 and 9: 16 is that the caller holds file f for reading only.
fn check_write_page(c: Caller<'_>, f: u8, p: u8) -> Result<ClientPage<'_>, Refusal>
    ensures tested { number_of result ≡ first (write_tests (view c.entry.client.volume.bytes.now) c.entry.session c.entry.client.number f p) }
    ensures same { IfOk result (λ x. (x.client.number ≡ c.entry.client.number) × (x.client.volume.bytes.now ≡ c.entry.client.volume.bytes.now) × (x.file ≡ f) × (x.page ≡ p)) }
{
    let x = check_held(c, f)?;
    if x.holder() != c.client.number {
        return Err(Refusal::ReadOnly);
    }
    check_page(x, p)?;
    Ok(ClientPage {
        client: c.client,
        file: f,
        page: p,
    })
}

// The tests of write up to 9.
// This and `check_write_page` stay beside those of read: their contracts name different tests, and one function over both would be
// no plainer.
fn check_write_call(v: &[u8], s: Session, k: u8, f: u8, p: u8) -> Result<ClientPage<'_>, Refusal>
    ensures tested { number_of result ≡ first (active_tests (sound v.now) (view v.now) s k ++ write_tests (view v.now) s k f p) }
    ensures same { IfOk result (λ x. (x.client.number ≡ k) × (x.client.volume.bytes.now ≡ v.now) × (x.file ≡ f) × (x.page ≡ p)) }
{
    let c = check_active(v, s, k)?;
    check_write_page(c, f, p)
}

// Tests 11 and 12 of a page that the client's record has no entry for: its file has a free slot, and the record has room.
fn new_slot(x: ClientPage<'_>) -> Result<Target, Refusal>
    ensures { write_found result ≡ answer_by (first (no_free_slot true (view x.entry.client.volume.bytes.now) x.entry.client.number x.entry.file ∷ record_full true (view x.entry.client.volume.bytes.now) x.entry.client.number ∷ [])) none (chosen (view x.entry.client.volume.bytes.now) x.entry.client.number x.entry.file x.entry.page) }
{
    let r = free_slot(x).ok_or(Refusal::NoFreeSlot)?;
    if usize::from(x.client.entry_count()) == Limits::ENTRIES {
        return Err(Refusal::RecordFull);
    }
    Ok(Target::New(r))
}

// Tests 10 to 12: the page has its length, and the client's record has an entry for it or can take one.
fn check_slot(x: ClientPage<'_>, bytes: &[u8]) -> Result<Target, Refusal>
    ensures { write_found result ≡ write_answer (first (slot_tests (is_new_page (view x.entry.client.volume.bytes.now) x.entry.client.number x.entry.file x.entry.page) (view x.entry.client.volume.bytes.now) x.entry.client.number x.entry.file bytes.now)) (view x.entry.client.volume.bytes.now) x.entry.client.number x.entry.file x.entry.page }
{
    if bytes.len() != Sector::SIZE {
        return Err(Refusal::BadPageLength);
    }
    match find_entry(x.client, x.file, x.page) {
        Some(r) => Ok(Target::Again(r)),
        None => new_slot(x),
    }
}

// The tests of write, and where the page goes. Ruled out: 16 tested after 9 (`rules/must-fail/sixteen_after_nine`); a file
// held for reading only accepted (`must-fail/reader_writes`).
pub fn check_write(
    v: &[u8],
    s: Session,
    k: u8,
    f: u8,
    p: u8,
    bytes: &[u8],
) -> Result<Target, Refusal>
    ensures { write_found result ≡ write_answer (first (tests (sound v.now) (view v.now) s (write k f p bytes.now))) (view v.now) k f p }
{
    let x = check_write_call(v, s, k, f, p)?;
    check_slot(x, bytes)
}
