// The entries of a transcript, each written behind the one before.
#![tactic(auto, using(text::proofs::WritesLaws::wrote_more, crate::proofs::TranscriptLaws::call_entry, crate::proofs::TranscriptLaws::call_room, crate::proofs::TranscriptLaws::query_room, crate::proofs::TranscriptLaws::query_answer, crate::proofs::TranscriptLaws::shown_length), unfolding(crate::specs::Transcripts::head_bytes))]

ghost use Rattle.std.specs.Prelude.{◌≡◌, [], length};
ghost use Rattle.interface.specs.Answers.{answer_of, query_answer_of};
ghost use Rattle.sector.specs.Sectors.{word_bytes};
ghost use Rattle.rules.specs.Calls.{query};
ghost use Rattle.text.specs.Writes.{HasRoom, Wrote};
ghost use Rattle.atomicity.specs.Runs.{given};
ghost use Rattle.atomicity.specs.Transcripts.{of_call};
ghost use Rattle.commands.specs.declared.Told.{Told};
ghost use Rattle.commands.specs.Commands.{query_of};
ghost use Rattle.replay.specs.Transcripts.{session_bytes, head_bytes, answer_bytes, entry_of};
ghost use Rattle.replay.specs.Walks.{kind_number, noted, IsAnswer};

use commands::{Command, Performed, Told};
use interface::{Outcome, Refusal, Session};
use text::Writer;

// What kind of answer an entry has, by the byte that it begins with. Ruled out: a call that is done told as one that was
// cut (`must-fail/done_told_as_cut`); a number above 3.
// An enum of its own beside `capi`'s: that one numbers what C gets, this one a transcript's entries, and neither crate uses the
// other.
#[derive(Clone, Copy, Debug, PartialEq, Eq)]
enum Kind {
    // The call is done.
    Done = 0,
    // It was cut: the budget ran out.
    Cut = 1,
    // It was refused.
    Refused = 2,
    // A question answered a sector.
    Sector = 3,
}

impl From<Kind> for u8 {
    ghost from_gives = { λ k n. n ≡ kind_number k };

    fn from(k: Kind) -> u8 {
        // `as` hands back the variant's number; a `match` would write the numbers again.
        k as u8
    }
}

// The two bytes of a number.
fn put_word(w: &mut Writer<'_>, n: u16)
    requires { HasRoom w.old 2 }
    ensures { Wrote (word_bytes n []) w.old w.new }
{
    w.put(&n.to_le_bytes());
}

// The nine bytes of a session.
fn put_session(w: &mut Writer<'_>, s: Session)
    requires { HasRoom w.old 9 }
    ensures { Wrote (session_bytes s) w.old w.new }
{
    // No `for` over the words: its proof wants an invariant and a law of their bytes, and these lines need neither.
    let [a, b, c, d] = s.reading;
    w.put(&[s.marks_byte()]);
    put_word(w, a);
    put_word(w, b);
    put_word(w, c);
    put_word(w, d);
}

// The twelve bytes that an entry begins with. Ruled out: the reading holds left out (`must-fail/holds_forgotten`).
fn put_head(w: &mut Writer<'_>, kind: Kind, number: u16, s: Session)
    requires { HasRoom w.old 12 }
    ensures { Wrote (head_bytes (kind_number kind) number s) w.old w.new }
{
    w.put(&[kind.into()]);
    put_word(w, number);
    put_session(w, s);
}

// A call's answer.
#[tactic(auto)]
fn put_outcome(w: &mut Writer<'_>, o: Result<Outcome, Refusal>, s: Session)
    requires { HasRoom w.old 12 }
    ensures { Wrote (answer_bytes (of_call (answer_of o)) s) w.old w.new }
{
    match o {
        Ok(Outcome::Done(n)) => put_head(w, Kind::Done, u16::from(n), s),
        Ok(Outcome::Crashed(n)) => put_head(w, Kind::Cut, u16::from(n), s),
        Err(r) => put_head(w, Kind::Refused, u16::from(u8::from(r)), s),
    }
}

// A question's answer, the bytes of the sector answered, and the part handed back: two pages of zeros, if it was refused.
fn put_query(
    w: &mut Writer<'_>,
    v: &[u8],
    s: Session,
    c: Command,
    o: Result<u16, Refusal>,
    q: Session,
)
    requires { HasRoom w.old 524 × (query_answer_of o ≡ query v.now (given c.crash s) (query_of c)) }
    ensures { Wrote (entry_of (noted v.now s c (Told.Query o) q)) w.old w.new }
{
    match o {
        Err(r) => {
            put_head(w, Kind::Refused, u16::from(u8::from(r)), q);
            w.put(&[0; 512]);
        }
        Ok(n) => {
            put_head(w, Kind::Sector, n, q);
            w.put(sector::part(v, usize::from(n)));
            w.put(commands::page(v, s, c));
        }
    }
}

// The entry of a command that was performed so: s is the session before it.
pub fn put_entry(w: &mut Writer<'_>, v: &[u8], s: Session, c: Command, p: Performed)
    requires { HasRoom w.old (length (entry_of (noted v.now s c p.told p.session))) × IsAnswer v.now s c p.told }
    ensures { Wrote (entry_of (noted v.now s c p.told p.session)) w.old w.new }
{
    match p.told {
        Told::Call(o) => put_outcome(w, o, p.session),
        Told::Query(o) => put_query(w, v, s, c, o, p.session),
    }
}
