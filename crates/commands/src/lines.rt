// The lines that are calls, as commands, and the line that formats. Each contract says which of the definition's steps
// the line is. Ruled out: a budget left out taken for anything but 255 (`must-fail/budget_of_254`); data of which every
// byte is the same (`must-fail/seed_not_counted`).
ghost use Rattle.std.specs.Prelude.{◌≡◌, ◌≤◌, length};
ghost use Rattle.volume.specs.Format;
ghost use Rattle.format.specs.Outcomes.{formatted};
ghost use Rattle.atomicity.specs.Model.{Model};
ghost use Rattle.commands.specs.Commands.{run_of, IsPerformed};
ghost use Rattle.commands.specs.Lines.{byte_argument, budget_argument, file_place, budget_place, line_command, line_step, data_length, shape_length, shape_of, ramp};

use crate::{Action, Command, Performed, perform};
use interface::{Refusal, Session};
use script::Script;
use script::fields::{argument, arguments};

// Argument n as a byte.
// One that is missing or too large is 255, as the definition has it: of a line that is understood, only arguments that its call
// doesn't take.
pub fn byte_argument(line: &[u8], n: usize) -> u8
    ensures { result ≡ byte_argument n line.now }
{
    u8::try_from(argument(line, n)).unwrap_or(u8::MAX)
}

// Argument n as a budget, and the one of a line without it.
fn budget(line: &[u8], n: usize) -> u8
    ensures { result ≡ budget_argument n line.now }
{
    if arguments(line) < n {
        return Command::BUDGET;
    }
    byte_argument(line, n)
}

// Which argument of the line is its file. Ruled out: a look's page taken for its file (`must-fail/look_behind_a_client`).
fn file_place(a: Action) -> usize
    ensures { (result ≡ file_place a) × (result ≤ 2) }
{
    if a == Action::Look { 1 } else { 2 }
}

// Which argument of the line is its budget.
fn budget_place(a: Action) -> usize
    ensures { result ≡ budget_place a }
{
    match a {
        Action::Begin | Action::Commit | Action::Abort => 2,
        Action::Open | Action::OpenRead => 3,
        Action::Read | Action::Look => 4,
        Action::Write => 6,
    }
}

// The command of a line. Arguments that it doesn't take are ignored.
pub fn command(a: Action, line: &[u8]) -> Command
    ensures { result ≡ line_command a line.now }
{
    let at = file_place(a);
    Command {
        action: a,
        crash: false,
        client: byte_argument(line, 1),
        file: byte_argument(line, at),
        page: byte_argument(line, at + 1),
        budget: budget(line, budget_place(a)),
    }
}

// The part becomes the data of this seed.
fn fill(part: &mut [u8], seed: u8)
    ensures { part.new ≡ ramp seed (length part.old) }
{
    let mut next = seed;
    for x in part.iter_mut() {
        *x = next;
        next = next.wrapping_add(1);
    }
}

// The length of a write's data.
fn data_length(line: &[u8]) -> usize
    ensures { (result ≡ data_length line.now) × (result ≤ 512) }
{
    argument(line, 5).min(Script::DATA)
}

// `begin K [BUDGET]`, `open K F [BUDGET]`, `open_read K F [BUDGET]`, the first call of `read K F P` and of `look F P`,
// `write K F P SEED LENGTH [BUDGET]`, `commit K [BUDGET]`, `abort K [BUDGET]`.
pub fn perform_line(v: &mut [u8], s: Session, a: Action, line: &[u8]) -> Performed
    ensures { (m : Model) → IsPerformed (run_of v.old s m) (line_step a line.now) result v.new }
{
    let mut buffer = [0u8; Script::DATA];
    let data = &mut buffer[..data_length(line)];
    fill(data, byte_argument(line, 4));
    perform(v, s, command(a, line), data)
}

// The number of bytes in a format's list.
fn shape_length(line: &[u8]) -> usize
    ensures { (result ≡ shape_length line.now) × (result ≤ 64) }
{
    arguments(line).saturating_sub(2).min(Script::SHAPE)
}

// The part becomes the list of a format.
fn fill_shape(shape: &mut [u8], line: &[u8])
    requires { length shape.old ≤ 64 }
    ensures { shape.new ≡ shape_of line.now (length shape.old) }
{
    for (i, x) in shape.iter_mut().enumerate() {
        *x = byte_argument(line, i + 3);
    }
}

// `format LENGTH T P R P R ..`, on the array lent.
pub fn format(v: &mut [u8], line: &[u8]) -> Result<(), Refusal>
    ensures { formatted result v.new ≡ Format.format v.old (byte_argument 2 line.now)
        (shape_of line.now (shape_length line.now)) }
{
    let mut buffer = [0u8; Script::SHAPE];
    let shape = &mut buffer[..shape_length(line)];
    fill_shape(shape, line);
    format::format(v, byte_argument(line, 2), shape)
}
