// The calls on a volume. Each tests its own arguments and refuses by the first refusal that applies, before any store;
// then it makes the stores of its plan, as many as the budget allows.
// A refusal hands the session back, too, so a call ends in a `match` and not by `?`: that would take a second function for each
// call, and a closure for the stores would take a contract of its own.
#![tactic(auto, using(crate::proofs::FactLaws::begins, crate::proofs::FactLaws::acts, crate::proofs::FactLaws::call_formed, crate::proofs::FactLaws::same_tests, crate::proofs::FactLaws::looks, crate::proofs::AnswerLaws::refused_query, crate::proofs::AnswerLaws::refused_count))]

mod reply;

ghost use Rattle.std.specs.Prelude.{◌≡◌, true, ◌≤◌, ◌+◌, ◌*◌, length, IfOk};
ghost use Rattle.interface.specs.Answers.{query_answer_of, count_answer_of};
ghost use Rattle.sector.specs.Contents.{Table};
ghost use Rattle.volume.specs.Places.{slot_place, sector_of};
ghost use Rattle.volume.specs.Views.{View};
ghost use Rattle.volume.specs.Volumes.{view};
ghost use Rattle.volume.specs.Sound.{sound};
ghost use Rattle.volume.specs.WellFormed.{WellFormed};
ghost use Rattle.rules.specs.Plans.{open_file, open_read, read_page, session_after};
ghost use Rattle.rules.specs.Calls.{call, query, part_of, query_part, look_part};
ghost use Rattle.rules.specs.Spare;
ghost use Rattle.calls.specs.Replies.{replied};

use crate::reply::{end, refuse};
use checks::Target;
use interface::{ClientNumber, Refusal, Reply, Session};
use volume::VolumeFile;

// Starts a transaction of the client: recovers what an earlier one left, and opens its record. Ruled out: a session
// handed back without the mark; an orphaned transaction's files left held (`recovery/must-fail/idle_at_once`).
pub fn begin(volume: &mut [u8], session: Session, client: u8, budget: u8) -> Reply
    ensures { replied result volume.new ≡ call volume.old session (Rattle.rules.specs.Plans.begin client) budget }
{
    match checks::check_begin(volume, session, client) {
        Err(r) => refuse(session, r),
        Ok(k) => {
            let run = transaction::begin_stores(volume, client, budget);
            end(run, sessions::set_active(session, k, true))
        }
    }
}

// Gives the file to the client for writing, after the recovery of an orphaned holder; the client's reading hold of it ends.
// Ruled out: recovery of that file alone (`rules/must-fail/opened_file_only`); the map from before the recovery stored
// (`rules/must-fail/map_before_recovery`); the reading hold kept (`rules/must-fail/upgrade_keeps_hold`).
pub fn open(volume: &mut [u8], session: Session, client: u8, file: u8, budget: u8) -> Reply
    ensures { replied result volume.new ≡ call volume.old session (open_file client file) budget }
{
    match checks::check_open(volume, session, client, file) {
        Err(r) => refuse(session, r),
        Ok(o) => {
            let next = sessions::without_reading(session, o.client, o.file.in_session());
            let run = transaction::open_stores(volume, client, file, budget);
            end(run, next)
        }
    }
}

// The session with client k's reading hold of the file, unless k holds it already.
fn with_hold(x: VolumeFile<'_>, s: Session, k: ClientNumber) -> Session
    ensures { result ≡ session_after (view x.entry.volume.bytes.now) s (open_read k.number x.entry.number) }
{
    if checks::holds_either(x, s, k) {
        return s;
    }
    sessions::with_reading(s, k, x.in_session())
}

// Gives the file to the client for reading, after the recovery of an orphaned holder. Ruled out: no recovery
// (`rules/must-fail/read_without_recovery`), or one beyond the budget (`must-fail/read_budget_ignored`); a hold noted beside a
// writing one (`rules/must-fail/hold_beside_writing`).
pub fn open_read(volume: &mut [u8], session: Session, client: u8, file: u8, budget: u8) -> Reply
    ensures { replied result volume.new ≡ call volume.old session (open_read client file) budget }
{
    match checks::check_open_read(volume, session, client, file) {
        Err(r) => refuse(session, r),
        Ok(o) => {
            let next = with_hold(o.file, session, o.client);
            let run = transaction::open_read_stores(volume, client, file, budget);
            end(run, next)
        }
    }
}

// The sector that has the page as the client sees it. Ruled out: an answer by the map where the record has the
// page (`slots/must-fail/read_by_map_alone`); an answer for a file that the client holds neither way.
pub fn read(volume: &[u8], session: Session, client: u8, file: u8, page: u8) -> Result<u16, Refusal>
    ensures { query_answer_of result ≡ query volume.now session (read_page client file page) }
{
    let x = checks::check_read(volume, session, client, file, page)?;
    let slot = slots::read_slot(x);
    Ok(slot_sector(x.of_file(), slot))
}

// The sector of slot r of the file.
fn slot_sector(x: VolumeFile<'_>, r: u8) -> u16
    ensures { result ≡ sector_of (view x.entry.volume.bytes.now).table (slot_place x.entry.number r) }
{
    // `as`, since it fits by proof: `try_from` would only add an `unwrap`.
    (x.header_sector() + 1 + usize::from(r)) as u16
}

// The sector that the answer to a question names, as a part of the volume. That a refusal gives an empty part is a rule of the papers.
fn part_of(v: &[u8], answer: Result<u16, Refusal>) -> &[u8]
    requires { IfOk answer (λ n. 256 * n + 256 ≤ length v.now) }
    ensures { result.now ≡ part_of v.now (query_answer_of answer) }
{
    match answer {
        Err(_) => &v[0..0],
        Ok(n) => sector::part(v, usize::from(n)),
    }
}

// The page itself: the part of the volume that `read` names, or an empty part where it refuses. Ruled out: another
// page's part (`must-fail/page_of_another`); anything but an empty part on a refusal
// (`rules/must-fail/part_of_a_refused_read`).
pub fn page(volume: &[u8], session: Session, client: u8, file: u8, page: u8) -> &[u8]
    ensures { result.now ≡ query_part volume.now session (read_page client file page) }
{
    part_of(volume, read(volume, session, client, file, page))
}

// The sector that has the page of the decided content, for anyone who looks. Ruled out: an answer by the map alone where the
// holder's record is decided (`slots/must-fail/look_by_map_alone`), or by the entries where it is only open
// (`slots/must-fail/look_into_an_open_record`); a refusal because a client holds the file
// (`rules/must-fail/look_blocked_by_client`).
pub fn look(volume: &[u8], file: u8, page: u8) -> Result<u16, Refusal>
    ensures { query_answer_of result ≡ Rattle.rules.specs.Calls.look volume.now file page }
{
    let v = checks::check_look(volume, file, page)?;
    let slot = slots::decided_slot(v, file, page);
    Ok(slot_sector(v.formed().tabled().file(file), slot))
}

// The page itself: the part of the volume that `look` names, or an empty part where it refuses. Ruled out: another page's
// part (`must-fail/look_part_of_another`); anything but an empty part on a refusal.
pub fn look_part(volume: &[u8], file: u8, page: u8) -> &[u8]
    ensures { result.now ≡ look_part volume.now file page }
{
    part_of(volume, look(volume, file, page))
}

// How many slots the file's map leaves: what its header says, whatever the rest of the volume holds. Ruled out: all its slots
// counted (`rules/must-fail/spare_answers_all`), or another byte of the header answered (`sector/must-fail/holder_as_count`);
// a refusal because of a record or another header (`rules/must-fail/spare_tests_the_volume`).
pub fn spare(volume: &[u8], file: u8) -> Result<u8, Refusal>
    ensures { count_answer_of result ≡ Spare.spare volume.now file }
{
    let x = checks::check_spare(volume, file)?;
    Ok(sector::header_spare(x.header()))
}

// Writes 256 bytes as the page, in the client's transaction. Ruled out: a slot chosen by the map alone
// (`slots/must-fail/free_by_map_alone`); the record stored before the page
// (`transaction/must-fail/write_record_first`).
pub fn write(
    volume: &mut [u8],
    session: Session,
    client: u8,
    file: u8,
    page: u8,
    bytes: &[u8],
    budget: u8,
) -> Reply
    ensures { replied result volume.new ≡ call volume.old session (Rattle.rules.specs.Plans.write client file page bytes.now) budget }
{
    match checks::check_write(volume, session, client, file, page, bytes) {
        Err(r) => refuse(session, r),
        Ok(target) => {
            let src = bytes.as_array().unwrap();
            let made = match target {
                Target::Again(slot) => transaction::write_again(volume, file, slot, src, budget),
                Target::New(slot) => {
                    transaction::write_new(volume, client, file, page, slot, src, budget)
                }
            };
            end(made, session)
        }
    }
}

// Ends the client's transaction: its pages become the files' content. The first store decides; the others free the files.
// Ruled out: only the first held file handled (`rules/must-fail/file_1_only`); another client's transaction ended in the session
// (`must-fail/commit_ends_client_1`), the mark or the holds kept there (`sessions/must-fail/mark_after_commit`, `hold_after_commit`).
pub fn commit(volume: &mut [u8], session: Session, client: u8, budget: u8) -> Reply
    ensures { replied result volume.new ≡ call volume.old session (Rattle.rules.specs.Plans.commit client) budget }
{
    match checks::check_active(volume, session, client) {
        Err(r) => refuse(session, r),
        Ok(c) => {
            let next = sessions::without_client(session, c.client.in_session());
            let run = transaction::commit_stores(volume, client, budget);
            end(run, next)
        }
    }
}

// Ends the client's transaction and drops its pages. Ruled out: its entries redone (`recovery/must-fail/redo_open`); its
// record left open (`must-fail/stores_nothing`).
pub fn abort(volume: &mut [u8], session: Session, client: u8, budget: u8) -> Reply
    ensures { replied result volume.new ≡ call volume.old session (Rattle.rules.specs.Plans.abort client) budget }
{
    match checks::check_active(volume, session, client) {
        Err(r) => refuse(session, r),
        Ok(c) => {
            let next = sessions::without_client(session, c.client.in_session());
            let run = transaction::abort_stores(volume, client, budget);
            end(run, next)
        }
    }
}
