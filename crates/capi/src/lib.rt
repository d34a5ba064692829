// The volume for C and Rust: `include/volume.h` declares these functions and structs. A slice is a pointer and a count.
// Sessions, replies and answers are structs by value. Ruled out of every call that takes a session: a fifth mark passed over
// (`must-fail/fifth_bit_accepted`), and another session than the one given handed back by a refusal (`PassLaws.refused_given`);
// of every answer, one kind taken for another (`must-fail/sector_as_refusal`).
#![tactic(auto, unfolding(crate::specs::Passing::called_by, crate::specs::Passing::asked_by, crate::specs::Passing::session_given))]

mod pass;

ghost use Rattle.std.specs.Prelude.{◌≡◌};
ghost use Rattle.volume.specs.Sound.{sound};
ghost use Rattle.volume.specs.Format.{Formatted};
ghost use Rattle.rules.specs.Plans.{open_file, open_read, read_page};
ghost use Rattle.listing.specs.Listed.{listed};
ghost use Rattle.rules.specs.Calls.{look};
ghost use Rattle.rules.specs.Spare.{spare};
ghost use Rattle.capi.specs.Passing.{passed_query, passed_count, passed_format, truth, called_by, asked_by, listed_length};

use crate::pass::{reply_with, session_given};

// A session: bit k - 1 of `active` is client k's mark, bit f - 1 of `reading[k - 1]` its reading hold of file f.
#[repr(C)]
#[derive(Clone, Copy, Debug, PartialEq, Eq)]
pub struct VolSession {
    pub active: u8,
    pub reading: [u16; 4],
}

// The reply of a call that takes a session and a budget.
#[repr(C)]
#[derive(Clone, Copy, Debug, PartialEq, Eq)]
pub struct VolReply {
    pub session: VolSession,
    pub kind: u8,
    pub number: u16,
}

// The answer of a call that hands back no session.
#[repr(C)]
#[derive(Clone, Copy, Debug, PartialEq, Eq)]
pub struct VolAnswer {
    pub kind: u8,
    pub number: u16,
}

// Formats the volume.
#[unsafe(no_mangle)]
pub extern "C" fn vol_format(volume: &mut [u8], clients: u8, shape: &[u8]) -> VolAnswer
    ensures value { result ≡ passed_format (Rattle.volume.specs.Format.format volume.old clients shape.now).answer }
    ensures volume_after { volume.new ≡ (Rattle.volume.specs.Format.format volume.old clients shape.now).volume }
{
    format::format(volume, clients, shape).into()
}

// Whether the volume is sound: 1 or 0.
#[unsafe(no_mangle)]
pub extern "C" fn vol_is_sound(volume: &[u8]) -> u64
    ensures { result ≡ truth (sound volume.now) }
{
    u64::from(soundness::is_sound(volume))
}

// Starts a transaction of the client. `vol_commit` and `vol_abort` are like it, and stay functions of their own:
// C calls all three by name. The same `match` stands in each call here: a function over a closure would repeat the call's contract for
// the closure, and be no plainer.
#[unsafe(no_mangle)]
pub extern "C" fn vol_begin(
    volume: &mut [u8],
    session: VolSession,
    client: u8,
    budget: u8,
) -> VolReply
    ensures { (record { reply = result; volume = volume.new }) ≡ called_by volume.old session (Rattle.rules.specs.Plans.begin client) budget }
{
    match session_given(volume, session) {
        Err(x) => reply_with(session, x),
        Ok(s) => calls::begin(volume, s, client, budget).into(),
    }
}

// Gives the file to the client for writing. `vol_open_read` is like it, and stays a function of its own: C calls both
// by name.
#[unsafe(no_mangle)]
pub extern "C" fn vol_open(
    volume: &mut [u8],
    session: VolSession,
    client: u8,
    file: u8,
    budget: u8,
) -> VolReply
    ensures { (record { reply = result; volume = volume.new }) ≡ called_by volume.old session (open_file client file) budget }
{
    match session_given(volume, session) {
        Err(x) => reply_with(session, x),
        Ok(s) => calls::open(volume, s, client, file, budget).into(),
    }
}

// Gives the file to the client for reading. Ruled out: client and file exchanged (`must-fail/client_and_file_exchanged`); the
// file given for writing.
#[unsafe(no_mangle)]
pub extern "C" fn vol_open_read(
    volume: &mut [u8],
    session: VolSession,
    client: u8,
    file: u8,
    budget: u8,
) -> VolReply
    ensures { (record { reply = result; volume = volume.new }) ≡ called_by volume.old session (open_read client file) budget }
{
    match session_given(volume, session) {
        Err(x) => reply_with(session, x),
        Ok(s) => calls::open_read(volume, s, client, file, budget).into(),
    }
}

// The sector that has the page as the client sees it.
#[unsafe(no_mangle)]
pub extern "C" fn vol_read(
    volume: &[u8],
    session: VolSession,
    client: u8,
    file: u8,
    page: u8,
) -> VolAnswer
    ensures { result ≡ asked_by volume.now session (read_page client file page) }
{
    match session_given(volume, session) {
        Err(x) => x,
        Ok(s) => calls::read(volume, s, client, file, page).into(),
    }
}

// The sector that has the page of the decided content, without a session. Ruled out: file and page exchanged
// (`must-fail/look_at_page_of_file`); a sector told as a refusal (`must-fail/sector_as_refusal`).
#[unsafe(no_mangle)]
pub extern "C" fn vol_look(volume: &[u8], file: u8, page: u8) -> VolAnswer
    ensures { result ≡ passed_query (look volume.now file page) }
{
    calls::look(volume, file, page).into()
}

// How many slots the file's map leaves. Ruled out: a count told as a sector (`must-fail/count_as_sector`); the count of another
// file.
#[unsafe(no_mangle)]
pub extern "C" fn vol_spare(volume: &[u8], file: u8) -> VolAnswer
    ensures { result ≡ passed_count (spare volume.now file) }
{
    calls::spare(volume, file).into()
}

// Writes the bytes as the page, in the client's transaction.
#[unsafe(no_mangle)]
pub extern "C" fn vol_write(
    volume: &mut [u8],
    session: VolSession,
    client: u8,
    file: u8,
    page: u8,
    bytes: &[u8],
    budget: u8,
) -> VolReply
    ensures { (record { reply = result; volume = volume.new }) ≡ called_by volume.old session (Rattle.rules.specs.Plans.write client file page bytes.now) budget }
{
    match session_given(volume, session) {
        Err(x) => reply_with(session, x),
        Ok(s) => calls::write(volume, s, client, file, page, bytes, budget).into(),
    }
}

// Ends the client's transaction: its pages become the files' content.
#[unsafe(no_mangle)]
pub extern "C" fn vol_commit(
    volume: &mut [u8],
    session: VolSession,
    client: u8,
    budget: u8,
) -> VolReply
    ensures { (record { reply = result; volume = volume.new }) ≡ called_by volume.old session (Rattle.rules.specs.Plans.commit client) budget }
{
    match session_given(volume, session) {
        Err(x) => reply_with(session, x),
        Ok(s) => calls::commit(volume, s, client, budget).into(),
    }
}

// Ends the client's transaction and drops its pages.
#[unsafe(no_mangle)]
pub extern "C" fn vol_abort(
    volume: &mut [u8],
    session: VolSession,
    client: u8,
    budget: u8,
) -> VolReply
    ensures { (record { reply = result; volume = volume.new }) ≡ called_by volume.old session (Rattle.rules.specs.Plans.abort client) budget }
{
    match session_given(volume, session) {
        Err(x) => reply_with(session, x),
        Ok(s) => calls::abort(volume, s, client, budget).into(),
    }
}

// Writes the listing of the volume to the front of `out`: its length, or 0 if nothing was written.
#[unsafe(no_mangle)]
pub extern "C" fn vol_list(volume: &[u8], out: &mut [u8]) -> u64
    ensures value { result ≡ listed_length (listed volume.now out.old).outcome }
    ensures out_after { out.new ≡ (listed volume.now out.old).out }
{
    // 0 says that nothing was written, as `include/volume.h` has it: C has no `Option`.
    // `as`, since there is no `From` of these types, and `try_from` would only add an `unwrap`: a length fits by proof.
    listing::list(volume, out).unwrap_or(0) as u64
}
