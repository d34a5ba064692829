// The steps of a script performed one after the other, each noted in the transcript.
ghost use Rattle.std.specs.Prelude.{◌≡◌, ◌≤◌, length};
ghost use Rattle.atomicity.specs.Model.{Model};
ghost use Rattle.commands.specs.Commands.{run_of};
ghost use Rattle.text.specs.Writes.{HasRoom};
ghost use Rattle.replay.specs.Scripts.{steps, step_in};
ghost use Rattle.replay.specs.Transcripts.{entry_length, transcript_length};
ghost use Rattle.replay.specs.Replays.{run_left, ran};
ghost use Rattle.replay.specs.Walks.{IsPiece, IsStepped};

use crate::steps::{HEAD, Steps, first_command};
use crate::transcript::put_entry;
use interface::Session;
use text::Writer;

// Performs the step of these bytes, and writes its entry. Hands back the session after it.
fn step(v: &mut [u8], s: Session, bytes: &[u8], w: &mut Writer<'_>) -> Session
    requires { IsPiece bytes.now × HasRoom w.old (entry_length (step_in bytes.now)) }
    ensures { (m : Model) → IsStepped (run_of v.old s m) (step_in bytes.now) v.new result w.old w.new }
{
    let c = first_command(bytes);
    let p = commands::perform(v, s, c, &bytes[HEAD..]);
    put_entry(w, v, s, c, p);
    p.session
}

// Performs all steps, in order.
pub fn run_steps(v: &mut [u8], s: Session, script: &[u8], out: &mut [u8]) -> Session
    requires { transcript_length (steps script.now) ≤ length out.old }
    ensures { (m : Model) → (record { answer = ran; session = result; volume = v.new; out = out.new })
        ≡ run_left (run_of v.old s m) script.now out.old }
{
    let mut w = Writer { out, at: 0 };
    let mut last = s;
    for bytes in Steps::of(script) {
        last = step(v, last, bytes, &mut w);
    }
    last
}
