// The steps of a script: a walk over them, the command of each, and whether the transcript of all of them has room.
#![tactic(auto, using(crate::proofs::ScriptLaws::short_none, crate::proofs::ScriptLaws::cut_none, crate::proofs::ScriptLaws::fits_whole, crate::proofs::ScriptLaws::no_step), unfolding(crate::specs::Walks::step_length, crate::specs::Scripts::command_in))]

ghost use Rattle.std.specs.Prelude.{◌≡◌, ◌≤◌, length, IfSome};
ghost use Rattle.std.specs.Iterator.{YieldsFirstRef, item_count};
ghost use Rattle.replay.specs.Scripts.{action_of, command_in};
ghost use Rattle.replay.specs.Replays.{has_room};
ghost use Rattle.replay.specs.Walks.{step_length, pieces, pieces_left, action_length};

use commands::{Action, Command};

// The bytes of a step before its data.
pub const HEAD: usize = 8;

// The length of the step at the front, with its data, if a whole one stands there.
pub fn step_length(script: &[u8]) -> Option<usize>
    ensures value { result ≡ step_length script.now }
    ensures inside { IfSome result (λ n. (8 ≤ n) × (n ≤ length script.now)) }
{
    if script.len() < HEAD {
        return None;
    }
    let data = u16::from_le_bytes([script[6], script[7]]);
    let n = HEAD + usize::from(data);
    if script.len() < n {
        return None;
    }
    Some(n)
}

// A walk over the steps of a script: the bytes from the next one on. Clone and Copy alone: nobody compares two walks or prints one.
#[derive(Clone, Copy)]
pub struct Steps<'a> {
    script: &'a [u8],
}

impl<'a> Steps<'a> {
    // The bytes of each step of the script, in order. Ruled out: the last one left out (`must-fail/last_step_not_walked`);
    // bytes at the end that are no whole step taken for one.
    pub fn of(script: &'a [u8]) -> Self
        ensures { pieces_left result ≡ pieces script.now }
    {
        Steps { script }
    }
}

impl<'a> Iterator for Steps<'a> {
    type Item = &'a [u8];

    ghost next_gives = { YieldsFirstRef pieces_left };

    ghost remaining = { item_count pieces_left };

    fn next(&mut self) -> Option<&'a [u8]> {
        let n = step_length(self.script)?;
        let (first, rest) = self.script.split_at(n);
        self.script = rest;
        Some(first)
    }
}

// Which call a step is. No `From<u8>`: these numbers are a rule of the scripts here, and an `impl From<u8>` here for another crate's
// type is refused.
fn action(n: u8) -> Action
    ensures { result ≡ action_of n }
{
    match n {
        0 => Action::Begin,
        1 => Action::Open,
        2 => Action::Write,
        3 => Action::Commit,
        4 => Action::Abort,
        6 => Action::OpenRead,
        7 => Action::Look,
        _ => Action::Read,
    }
}

// The command of the step at the front. Each place has the name of the field that it fills.
pub fn first_command(script: &[u8]) -> Command
    requires { 8 ≤ length script.now }
    ensures { result ≡ command_in script.now }
{
    Command {
        action: action(script[0]),
        crash: script[1] != 0,
        client: script[2],
        file: script[3],
        page: script[4],
        budget: script[5],
    }
}

// The length of the entry of a command that is this call.
fn entry_length(a: Action) -> usize
    ensures { result ≡ action_length a }
{
    match a {
        Action::Read | Action::Look => 524,
        _ => 12,
    }
}

// Whether the transcript of the script fits into `room` bytes.
pub fn has_room(script: &[u8], room: usize) -> bool
    ensures { result ≡ has_room script.now room }
{
    let mut left = room;
    for bytes in Steps::of(script) {
        let e = entry_length(first_command(bytes).action);
        if left < e {
            return false;
        }
        left -= e;
    }
    true
}
