// The reading holds of a session: bit f - 1 of client k's word is its hold of file f.
ghost use Rattle.std.specs.Prelude.{◌≡◌, false, ◌-◌, ◌^◌, ◌≤◌, eqb};
ghost use Rattle.lists.specs.Lists.{every, from};
ghost use Rattle.rules.specs.Sessions.{set_active, files_read, is_reading, with_reading, without_reading, without_reader, is_read_by_other};

use crate::marks::set_active;
use interface::{ClientNumber, FileNumber, Session};

// The word that has only the bit of file f.
// Not `byteset`'s: a session's word has 16 bits, as document 01 and C have it, and one generic `mask` for two lines would be no
// plainer.
fn mask(f: FileNumber) -> u16
    ensures { result ≡ 2 ^ (f.number - 1) }
{
    1 << (f.number - 1)
}

// Whether client k holds file f for reading. Ruled out: another file's bit (`must-fail/files_from_the_top`); the word of
// another client.
pub fn is_reading(s: Session, k: ClientNumber, f: FileNumber) -> bool
    ensures { result ≡ is_reading s k.number f.number }
{
    s.reading[k.index()] & mask(f) != 0
}

// The session with client k's reading hold of file f. Ruled out: the hold of another file (`must-fail/files_from_the_top`);
// the hold not noted, or the client's others gone (`must-fail/hold_not_noted`).
pub fn with_reading(mut s: Session, k: ClientNumber, f: FileNumber) -> Session
    ensures { result ≡ with_reading s k.number f.number }
{
    s.reading[k.index()] |= mask(f);
    s
}

// Whether no client has a reading hold. Most sessions have none, so this is looked at first.
pub fn none_reads(s: Session) -> bool
    ensures { result ≡ every (λ k. eqb (files_read s k) 0) (from 1 4) }
{
    s.reading == [0; 4]
}

// The session without client k's reading hold of file f. Ruled out: the hold of another file ended
// (`must-fail/file_1_ended`); the hold kept.
pub fn without_reading(mut s: Session, k: ClientNumber, f: FileNumber) -> Session
    ensures { result ≡ without_reading s k.number f.number }
{
    s.reading[k.index()] &= !mask(f);
    s
}

// The session when client k's transaction is over: k isn't marked, and has no reading hold. Ruled out: its holds kept
// (`must-fail/hold_after_commit`); another client's ended.
pub fn without_client(s: Session, k: ClientNumber) -> Session
    ensures { result ≡ without_reader (set_active s k.number false) k.number }
{
    let mut next = set_active(s, k, false);
    next.reading[k.index()] = 0;
    next
}

// Whether another client than k holds file f for reading. Ruled out: the last client not looked at
// (`must-fail/reader_4_overlooked`); the client itself taken for another.
pub fn is_read_by_other(s: Session, k: u8, f: FileNumber) -> bool
    ensures { result ≡ is_read_by_other s k f.number }
{
    if none_reads(s) {
        return false;
    }
    (1..=ClientNumber::LAST).any(
        |j|
            requires { (1 ≤ j) × (j ≤ 4) }
        { j != k && is_reading(s, ClientNumber { number: j }, f) },
    )
}
