// A command performed by the call that it is. Its contract is the definition's step, so whatever is claimed of lists of
// steps holds for everything that performs its calls here.
ghost use Rattle.std.specs.Prelude.{◌≡◌};
ghost use Rattle.interface.specs.Answers.{answer_of};
ghost use Rattle.rules.specs.Calls.{query_part};
ghost use Rattle.atomicity.specs.Model.{Model};
ghost use Rattle.atomicity.specs.Runs.{given};
ghost use Rattle.atomicity.specs.Transcripts.{of_call};
ghost use Rattle.commands.specs.declared.Told.{Told};
ghost use Rattle.commands.specs.Commands.{query_of, step_of, run_of, told_of, IsPerformed};

use crate::{Action, Command, Performed, Told};
use interface::{Refusal, Reply, Session};

// The session that a command is given.
fn given_session(s: Session, crash: bool) -> Session
    ensures { result ≡ given crash s }
{
    if crash { Session::new() } else { s }
}

// What a call that hands back a session answered.
fn told(r: Reply) -> Performed
    ensures { (told_of result.told ≡ of_call (answer_of r.outcome)) × (result.session ≡ r.session) }
{
    Performed {
        told: Told::Call(r.outcome),
        session: r.session,
    }
}

// What a question answered. It hands back no session, so the one from before it stays.
fn asked(o: Result<u16, Refusal>, session: Session) -> Performed
    ensures { result ≡ record { told = Told.Query o; session = session } }
{
    Performed {
        told: Told::Query(o),
        session,
    }
}

// Performs the command; `bytes` is what a write stores. The contract is for every model, since no byte depends on it.
// Ruled out: the session that a read was given passed on (`must-fail/read_hands_on_its_session`); a read left out.
pub fn perform(v: &mut [u8], s: Session, c: Command, bytes: &[u8]) -> Performed
    ensures { (m : Model) → IsPerformed (run_of v.old s m) (step_of c bytes.now) result v.new }
{
    let g = given_session(s, c.crash);
    match c.action {
        Action::Begin => told(calls::begin(v, g, c.client, c.budget)),
        Action::Open => told(calls::open(v, g, c.client, c.file, c.budget)),
        Action::OpenRead => told(calls::open_read(v, g, c.client, c.file, c.budget)),
        Action::Write => told(calls::write(v, g, c.client, c.file, c.page, bytes, c.budget)),
        Action::Commit => told(calls::commit(v, g, c.client, c.budget)),
        Action::Abort => told(calls::abort(v, g, c.client, c.budget)),
        Action::Read => asked(calls::read(v, g, c.client, c.file, c.page), s),
        Action::Look => asked(calls::look(v, c.file, c.page), s),
    }
}

// The second call of a question: the page itself, or an empty part where the question is refused. Ruled out: a look's page taken as
// a client's read (`must-fail/look_reads`).
pub fn page<'a>(v: &'a [u8], s: Session, c: Command) -> &'a [u8]
    ensures { result.now ≡ query_part v.now (given c.crash s) (query_of c) }
{
    if c.action == Action::Look {
        return calls::look_part(v, c.file, c.page);
    }
    calls::page(v, given_session(s, c.crash), c.client, c.file, c.page)
}
