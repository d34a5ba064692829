// Scripts of calls as bytes, run through the calls themselves, with a transcript of what every step said.
// `format_and_replay` has all or none in its contract, as a claim about nothing but the script, the transcript and the
// volume that is left.
#![tactic(auto, using(crate::proofs::RunLaws::room_fits))]

mod run;
mod steps;
mod transcript;

ghost use Rattle.std.specs.Prelude.{◌≡◌, length};
ghost use Rattle.volume.specs.Format.{table_for};
ghost use Rattle.atomicity.specs.Model.{Model};
ghost use Rattle.commands.specs.Commands.{run_of};
ghost use Rattle.replay.specs.declared.ReplayError.{ReplayError};
ghost use Rattle.replay.specs.Replays.{replay_answer_of, left_by, replayed, formatted_and_run, AllOrNoneFor, WhereRun};

use crate::run::run_steps;
use crate::steps::has_room;
use interface::{Refusal, Session};
use std::error::Error;
use std::fmt;

// Why no step was performed. Nothing changed.
#[derive(Clone, Copy, Debug, PartialEq, Eq)]
pub enum ReplayError {
    // The transcript has no room in the buffer.
    NoRoom,
    // Format was refused.
    NotFormatted(Refusal),
}

// A format that was refused. Ruled out: told as no room (`must-fail/refused_as_no_room`); by another number.
impl From<Refusal> for ReplayError {
    ghost from_gives = { λ r e. e ≡ ReplayError.NotFormatted r };

    fn from(r: Refusal) -> ReplayError {
        ReplayError::NotFormatted(r)
    }
}

impl fmt::Display for ReplayError {
    fn fmt<W: fmt::Write>(&self, f: &mut fmt::Formatter<W>) -> fmt::Result {
        match self {
            ReplayError::NoRoom => write!(f, "no room"),
            ReplayError::NotFormatted(r) => write!(f, "not formatted: {}", *r),
        }
    }
}

impl Error for ReplayError {}

// What a replay hands back besides volume and transcript: whether every step was performed, and the session last handed back.
#[derive(Clone, Copy, Debug, PartialEq, Eq)]
pub struct Replayed {
    pub ended: Result<(), ReplayError>,
    pub session: Session,
}

// Performs all steps of the script, in order, and writes what each said to the front of `out`. The contract is for
// every model, since no byte depends on it. Ruled out: a step performed that isn't whole; a whole step left out
// (`must-fail/last_step_left_out`), be it a read; a script run whose transcript doesn't fit
// (`must-fail/room_for_calls_only`).
pub fn replay(v: &mut [u8], s: Session, script: &[u8], out: &mut [u8]) -> Replayed
    ensures { (m : Model) → left_by result v.new out.new ≡ replayed (run_of v.old s m) script.now out.old }
{
    if !has_room(script, out.len()) {
        return Replayed {
            ended: Err(ReplayError::NoRoom),
            session: s,
        };
    }
    Replayed {
        ended: Ok(()),
        session: run_steps(v, s, script, out),
    }
}

// Formats the array and replays the script on it. If it ran, then all or none holds: fed with the script and the
// transcript, the model shows what every read and look showed, and its pages are the decided content of the volume.
pub fn format_and_replay(
    v: &mut [u8],
    clients: u8,
    shape: &[u8],
    script: &[u8],
    out: &mut [u8],
) -> Replayed
    ensures out_after { left_by result v.new out.new ≡ formatted_and_run v.old clients shape.now script.now out.old }
    ensures where_run { WhereRun (replay_answer_of result.ended)
        (AllOrNoneFor (table_for (length v.old) clients shape.now) script.now v.new out.new) }
{
    if !has_room(script, out.len()) {
        return Replayed {
            ended: Err(ReplayError::NoRoom),
            session: Session::new(),
        };
    }
    match format::format(v, clients, shape) {
        Err(r) => Replayed {
            ended: Err(r.into()),
            session: Session::new(),
        },
        Ok(()) => Replayed {
            ended: Ok(()),
            session: run_steps(v, Session::new(), script, out),
        },
    }
}
