// What a call hands back.
ghost use Rattle.std.specs.Prelude.{◌≡◌, ℕ, List};
ghost use Rattle.interface.specs.Answers.{refused, refusal_number};
ghost use Rattle.calls.specs.Replies.{replied, ended_by};

use interface::{Outcome, Refusal, Reply, Session};
use stores::{Crashed, Run};

// A refused call hands back the session given.
pub fn refuse(s: Session, r: Refusal) -> Reply
    ensures { (w : List ℕ) → replied result w ≡ record { answer = refused (refusal_number r); session = s; volume = w } }
{
    Reply {
        outcome: Err(r),
        session: s,
    }
}

// A call that made its stores, or as many as its budget allowed. After a crash the session is a new one. Ruled out: marks and
// holds that outlast a crash (`rules/must-fail/hold_after_cut`).
pub fn end(made: Result<Run, Crashed>, s: Session) -> Reply
    ensures { (w : List ℕ) → replied result w ≡ ended_by made s w }
{
    match made {
        Ok(run) => Reply {
            outcome: Ok(Outcome::Done(run.made)),
            session: s,
        },
        Err(crash) => Reply {
            outcome: Ok(Outcome::Crashed(crash.made)),
            session: Session::new(),
        },
    }
}
