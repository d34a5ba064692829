// What a line does to the volume, which is the front of the buffer, and to the session.
use crate::print::{put_count, put_format, put_hex, put_list, put_outcome, put_query, put_session};
use commands::{Action, Told, inspect, lines};
use interface::Session;
use script::Kind;
use script::fields::argument;
use script::kinds::kind;
use std::io;

// The volume is the first `length` bytes of the buffer. The length is beside the buffer, since a later `format` line may make the
// volume longer: the memory for all volumes is one buffer.
#[derive(Clone, Copy, Debug, PartialEq, Eq)]
pub struct State {
    pub length: usize,
    pub session: Session,
}

// A line that is a call: it is performed, and its answer is printed. Hands back the session after it.
fn run_call(
    rt: &impl Print,
    v: &mut [u8],
    s: Session,
    a: Action,
    line: &[u8],
) -> io::Result<Session> {
    let p = lines::perform_line(v, s, a, line);
    match p.told {
        Told::Call(answer) => put_outcome(rt, answer)?,
        Told::Query(answer) => put_query(rt, answer, inspect::page(v, s, a, line))?,
    }
    Ok(p.session)
}

// `dump S`, if there is such a sector.
fn dump(rt: &impl Print, v: &[u8], line: &[u8]) -> io::Result<Option<()>> {
    inspect::dump(v, line)
        .map(|sector| put_hex(rt, sector))
        .transpose()
}

// `format LENGTH T P R P R ..`
fn format(rt: &impl Print, buffer: &mut [u8], line: &[u8]) -> io::Result<State> {
    let length = buffer.len().min(argument(line, 1));
    put_format(rt, lines::format(&mut buffer[..length], line))?;
    Ok(State {
        length,
        session: Session::new(),
    })
}

// Runs a line of this kind, and hands back the state after it; `None` if it names no place in volume or session.
fn run_line(
    rt: &impl Print,
    buffer: &mut [u8],
    state: State,
    kind: Kind,
    line: &[u8],
) -> io::Result<Option<State>> {
    let length = buffer.len().min(state.length);
    let v = &mut buffer[..length];
    let s = state.session;
    let session = match kind {
        Kind::Format => return Ok(Some(format(rt, buffer, line)?)),
        Kind::Call(a) => Some(run_call(rt, v, s, a, line)?),
        Kind::Session => Some(inspect::session(line)),
        Kind::ShowSession => {
            put_session(rt, s)?;
            Some(s)
        }
        Kind::Reading => inspect::reading(s, line),
        Kind::Spare => {
            put_count(rt, inspect::spare(v, line))?;
            Some(s)
        }
        Kind::Poke => inspect::poke(v, line).then_some(s),
        Kind::Dump => dump(rt, v, line)?.map(|()| s),
        Kind::List => {
            put_list(rt, v)?;
            Some(s)
        }
    };
    Ok(session.map(|session| State { length, session }))
}

// Runs one line, and hands back the state after it; `None` if the line isn't understood.
pub fn step(
    rt: &impl Print,
    buffer: &mut [u8],
    state: State,
    line: &[u8],
) -> io::Result<Option<State>> {
    if inspect::is_remark(line) {
        return Ok(Some(state));
    }
    match kind(line) {
        Some(kind) => run_line(rt, buffer, state, kind, line),
        None => Ok(None),
    }
}
