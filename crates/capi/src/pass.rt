// Sessions, replies and answers, as C gets them and gives them.
ghost use Rattle.std.specs.Prelude.{◌≡◌};
ghost use Rattle.interface.specs.Answers.{refusal_number, answer_of, query_answer_of, count_answer_of, format_answer_of};
ghost use Rattle.capi.specs.Passing.{kind_number, session_from, passed_session, passed_answer, passed_query, passed_count, passed_format, other_bits_refused, reply_with, session_given};

use crate::{VolAnswer, VolReply, VolSession};
use interface::{Outcome, Refusal, Reply, Session};

// The kind of a reply or an answer, by its byte: the words are those of `include/volume.h`. The structs that C gets have the
// byte. `replay` has another, which numbers the entries of a transcript. Ruled out: a call that is done told as one that was cut
// (`must-fail/done_told_as_cut`); a kind above 4.
#[derive(Clone, Copy, Debug, PartialEq, Eq)]
enum Kind {
    // VOL_DONE: the call is done.
    Done = 0,
    // VOL_CUT: the budget ran out.
    Cut = 1,
    // VOL_REFUSED: it was refused.
    Refused = 2,
    // VOL_SECTOR: a question answered a sector.
    Sector = 3,
    // VOL_COUNT: a question answered a count.
    Count = 4,
}

impl From<Kind> for u8 {
    ghost from_gives = { λ k n. n ≡ kind_number k };

    fn from(k: Kind) -> u8 {
        // `as` hands back the variant's number; a `match` would write the numbers again.
        k as u8
    }
}

// The session that C gives.
impl From<VolSession> for Session {
    ghost from_gives = { λ c s. s ≡ session_from c };

    fn from(c: VolSession) -> Session {
        Session::from_marks(c.active, c.reading)
    }
}

// A session as C gets it.
impl From<Session> for VolSession {
    ghost from_gives = { λ s c. c ≡ passed_session s };

    fn from(s: Session) -> VolSession {
        let reading = s.reading;
        VolSession {
            active: s.marks_byte(),
            reading,
        }
    }
}

// A refusal.
impl From<Refusal> for VolAnswer {
    ghost from_gives = { λ r x. x ≡ record { kind = 2; number = refusal_number r } };

    fn from(r: Refusal) -> VolAnswer {
        VolAnswer {
            kind: Kind::Refused.into(),
            number: u16::from(u8::from(r)),
        }
    }
}

// A call's answer.
impl From<Result<Outcome, Refusal>> for VolAnswer {
    ghost from_gives = { λ o x. x ≡ passed_answer (answer_of o) };

    fn from(o: Result<Outcome, Refusal>) -> VolAnswer {
        match o {
            Ok(Outcome::Done(n)) => VolAnswer {
                kind: Kind::Done.into(),
                number: u16::from(n),
            },
            Ok(Outcome::Crashed(n)) => VolAnswer {
                kind: Kind::Cut.into(),
                number: u16::from(n),
            },
            Err(r) => r.into(),
        }
    }
}

// A question's answer.
// It and the count's stay two: the type of the answer picks the kind, so a generic one would need a trait for that, and be no
// plainer.
impl From<Result<u16, Refusal>> for VolAnswer {
    ghost from_gives = { λ o x. x ≡ passed_query (query_answer_of o) };

    fn from(o: Result<u16, Refusal>) -> VolAnswer {
        match o {
            Ok(n) => VolAnswer {
                kind: Kind::Sector.into(),
                number: n,
            },
            Err(r) => r.into(),
        }
    }
}

// A count.
impl From<Result<u8, Refusal>> for VolAnswer {
    ghost from_gives = { λ o x. x ≡ passed_count (count_answer_of o) };

    fn from(o: Result<u8, Refusal>) -> VolAnswer {
        match o {
            Ok(n) => VolAnswer {
                kind: Kind::Count.into(),
                number: u16::from(n),
            },
            Err(r) => r.into(),
        }
    }
}

// A format's answer.
impl From<Result<(), Refusal>> for VolAnswer {
    ghost from_gives = { λ o x. x ≡ passed_format (format_answer_of o) };

    fn from(o: Result<(), Refusal>) -> VolAnswer {
        match o {
            Ok(()) => VolAnswer {
                kind: Kind::Done.into(),
                number: 0,
            },
            Err(r) => r.into(),
        }
    }
}

// A call's reply.
impl From<Reply> for VolReply {
    ghost from_gives = { λ r x. x ≡ reply_with (passed_session r.session) (passed_answer (answer_of r.outcome)) };

    fn from(r: Reply) -> VolReply {
        reply_with(r.session.into(), r.outcome.into())
    }
}

// An answer with a session.
pub fn reply_with(s: VolSession, x: VolAnswer) -> VolReply
    ensures { result ≡ reply_with s x }
{
    VolReply {
        session: s,
        kind: x.kind,
        number: x.number,
    }
}

// The session that C gives, or the refusal of one with other bits than four marks.
pub fn session_given(v: &[u8], s: VolSession) -> Result<Session, VolAnswer>
    ensures { result ≡ session_given v.now s }
{
    if s.active <= 15 {
        return Ok(s.into());
    }
    if soundness::is_sound(v) {
        return Err(Refusal::BadSession.into());
    }
    Err(Refusal::NotSound.into())
}
