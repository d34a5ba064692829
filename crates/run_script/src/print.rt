// What lines print.
use interface::{ClientNumber, FileNumber, Outcome, Refusal, Session};
use script::texts::hex;
use sector::Sector;
use std::io;

// An answer: what `put` prints of it, or the refusal.
fn put_answer<T, Put: FnOnce(T) -> io::Result<()>>(
    rt: &impl Print,
    answer: Result<T, Refusal>,
    put: Put,
) -> io::Result<()>
    requires { Put.IsAlwaysCallable put }
{
    match answer {
        Ok(x) => put(x),
        Err(refusal) => println!(rt; "{refusal}"),
    }
}

// A call's answer.
pub fn put_outcome(rt: &impl Print, answer: Result<Outcome, Refusal>) -> io::Result<()> {
    put_answer(rt, answer, |outcome| println!(rt; "{outcome}"))
}

// A format's answer.
pub fn put_format(rt: &impl Print, answer: Result<(), Refusal>) -> io::Result<()> {
    put_answer(rt, answer, |()| println!(rt; "done"))
}

// A sector or a page in hexadecimal.
pub fn put_hex(rt: &impl Print, bytes: &[u8]) -> io::Result<()> {
    let mut text = [0u8; 2 * Sector::SIZE];
    let n = hex(bytes, &mut text);
    console::write(rt, &text[..n])?;
    println!(rt; "")
}

// A question's answer, and the part of the volume that it hands back.
pub fn put_query(rt: &impl Print, answer: Result<u16, Refusal>, page: &[u8]) -> io::Result<()> {
    put_answer(rt, answer, |sector| {
        print!(rt; "sector {sector} ")?;
        put_hex(rt, page)
    })
}

// A count of slots.
pub fn put_count(rt: &impl Print, answer: Result<u8, Refusal>) -> io::Result<()> {
    put_answer(rt, answer, |n| println!(rt; "spare {n}"))
}

// The marks of a session, and its reading holds, rising by client and then by file.
pub fn put_session(rt: &impl Print, s: Session) -> io::Result<()> {
    println!(rt; "session {}", s.marks_byte())?;
    for k in 1..=ClientNumber::LAST {
        for f in 1..=FileNumber::LAST {
            if commands::inspect::shows_hold(s, k, f) {
                println!(rt; "kiln {k} reads {f}")?;
            }
        }
    }
    Ok(())
}

// What the listing program prints for the volume.
pub fn put_list(rt: &impl Print, v: &[u8]) -> io::Result<()> {
    let mut text = [0u8; listing::Listing::ROOM];
    let n = listing::print(v, &mut text);
    console::write(rt, &text[..n])
}
