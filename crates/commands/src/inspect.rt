// A question's second call; the lines that are no commands: sessions, counts, single bytes and whole sectors; and those that are
// passed over. Ruled out: a change of the byte after the last one (`must-fail/poke_past_the_end`); a sector shown that
// the end of the volume cuts off.
ghost use Rattle.std.specs.Prelude.{◌≡◌, is_some, IfSome};
ghost use Rattle.std.specs.Option.{option_map};
ghost use Rattle.interface.specs.Answers.{count_answer_of};
ghost use Rattle.rules.specs.Calls.{query_part};
ghost use Rattle.commands.specs.Commands.{query_of};
ghost use Rattle.commands.specs.Lines.{line_command};
ghost use Rattle.commands.specs.Inspect.{is_remark, session_set, is_hold, reading_added, shows_hold, spare_asked, poked, dumped};

use crate::Action;
use crate::lines::{byte_argument, command};
use interface::{ClientNumber, FileNumber, Refusal, Session};
use script::fields::argument;
use sector::Sector;

// Whether the line is passed over: it is empty or begins with `#`.
pub fn is_remark(line: &[u8]) -> bool
    ensures { result ≡ is_remark line.now }
{
    line.is_empty() || line[0] == b'#'
}

// `session M`. Ruled out: the holds from before kept; client 4's mark taken for client 1's
// (`interface/must-fail/bits_from_the_top`).
pub fn session(line: &[u8]) -> Session
    ensures { result ≡ session_set line.now }
{
    Session::from_marks(byte_argument(line, 1), [0; Session::CLIENTS])
}

// The reading hold of this client and file, if a session has room for it.
fn hold(k: u8, f: u8) -> Option<(ClientNumber, FileNumber)>
    ensures found { is_some result ≡ is_hold k f }
    ensures same { IfSome result (λ h. (h.0.number ≡ k) × (h.1.number ≡ f)) }
{
    Some((ClientNumber::new(k)?, FileNumber::new(f)?))
}

// `reading K F`. Ruled out: client 0 taken for client 1 (`must-fail/client_0_reads`); the holds from before dropped.
#[tactic(auto, unfolding(crate::specs::Inspect::reading_added))]
pub fn reading(s: Session, line: &[u8]) -> Option<Session>
    ensures { result ≡ reading_added s line.now }
{
    let (k, f) = hold(byte_argument(line, 1), byte_argument(line, 2))?;
    Some(sessions::with_reading(s, k, f))
}

// `session`: whether it has a line for this client and file. Ruled out: file 17 taken for file 1; a hold of client 0.
pub fn shows_hold(s: Session, k: u8, f: u8) -> bool
    ensures { result ≡ shows_hold s k f }
{
    hold(k, f).is_some_and(|(k, f)| sessions::is_reading(s, k, f))
}

// `read K F P`, `look F P`: the second call, which hands back the page itself.
pub fn page<'a>(v: &'a [u8], s: Session, a: Action, line: &[u8]) -> &'a [u8]
    ensures { result.now ≡ query_part v.now s (query_of (line_command a line.now)) }
{
    crate::page(v, s, command(a, line))
}

// `spare F`. Ruled out: the question about another file (`must-fail/spare_by_another_argument`); the answer to another question.
pub fn spare(v: &[u8], line: &[u8]) -> Result<u8, Refusal>
    ensures { count_answer_of result ≡ spare_asked v.now line.now }
{
    calls::spare(v, byte_argument(line, 1))
}

// `poke ADDRESS BYTE`: whether there is such an address.
pub fn poke(v: &mut [u8], line: &[u8]) -> bool
    ensures { (record { is_inside = result; volume = v.new }) ≡ poked v.old line.now }
{
    let at = argument(line, 1);
    if v.len() <= at {
        return false;
    }
    v[at] = byte_argument(line, 2);
    true
}

// `dump S`: the sector, if there is one.
pub fn dump<'a>(v: &'a [u8], line: &[u8]) -> Option<&'a [u8]>
    ensures { option_map (λ part. part.now) result ≡ dumped v.now line.now }
{
    let s = argument(line, 1);
    if v.len() / Sector::SIZE <= s {
        return None;
    }
    let at = Sector::SIZE * s;
    Some(&v[at..at + Sector::SIZE])
}
