// What a line asks for, by its word and its arguments.
ghost use Rattle.std.specs.Prelude.{◌≡◌};
ghost use Rattle.script.specs.Kinds.{arguments_fit, kind_of};
ghost use Rattle.script.specs.Kinds;

use crate::fields::{argument, arguments, has_word};
use crate::{Action, Kind, Row, Script};
use interface::{ClientNumber, FileNumber};
use sector::Limits;

// The most that an argument may be: any byte, a volume's length, an address and a sector in the array for a volume, the length of a
// write's data, and a session's marks, clients and files. `as`, since a constant's value can't call `from`.
const B: usize = u8::MAX as usize;

// The limits of a row whose arguments are all bytes.
const BYTES: [usize; 5] = [B; 5];

const LENGTH: usize = Script::VOLUME;

const ADDRESS: usize = LENGTH - 1;

const SECTOR: usize = Limits::SECTORS;

const DATA: usize = Script::DATA;

const SESSION: usize = (1 << ClientNumber::LAST) - 1;

const CLIENT: usize = ClientNumber::LAST as usize;

const FILE: usize = FileNumber::LAST as usize;

const ROWS: [Row; 16] = [
    Row {
        kind: Kind::Format,
        word: *b"format    ",
        least: 2,
        most: 2 + Script::SHAPE,
        limits: [LENGTH, B, B, B, B],
    },
    Row {
        kind: Kind::Call(Action::Begin),
        word: *b"begin     ",
        least: 1,
        most: 2,
        limits: BYTES,
    },
    Row {
        kind: Kind::Call(Action::Open),
        word: *b"open      ",
        least: 2,
        most: 3,
        limits: BYTES,
    },
    Row {
        kind: Kind::Call(Action::OpenRead),
        word: *b"open_read ",
        least: 2,
        most: 3,
        limits: BYTES,
    },
    Row {
        kind: Kind::Call(Action::Write),
        word: *b"write     ",
        least: 5,
        most: 6,
        limits: [B, B, B, B, DATA],
    },
    Row {
        kind: Kind::Call(Action::Commit),
        word: *b"commit    ",
        least: 1,
        most: 2,
        limits: BYTES,
    },
    Row {
        kind: Kind::Call(Action::Abort),
        word: *b"abort     ",
        least: 1,
        most: 2,
        limits: BYTES,
    },
    Row {
        kind: Kind::Call(Action::Read),
        word: *b"read      ",
        least: 3,
        most: 3,
        limits: BYTES,
    },
    Row {
        kind: Kind::Call(Action::Look),
        word: *b"look      ",
        least: 2,
        most: 2,
        limits: BYTES,
    },
    Row {
        kind: Kind::Spare,
        word: *b"spare     ",
        least: 1,
        most: 1,
        limits: BYTES,
    },
    Row {
        kind: Kind::Session,
        word: *b"session   ",
        least: 1,
        most: 1,
        limits: [SESSION, B, B, B, B],
    },
    Row {
        kind: Kind::ShowSession,
        word: *b"session   ",
        least: 0,
        most: 0,
        limits: BYTES,
    },
    Row {
        kind: Kind::Reading,
        word: *b"reading   ",
        least: 2,
        most: 2,
        limits: [CLIENT, FILE, B, B, B],
    },
    Row {
        kind: Kind::Poke,
        word: *b"poke      ",
        least: 2,
        most: 2,
        limits: [ADDRESS, B, B, B, B],
    },
    Row {
        kind: Kind::Dump,
        word: *b"dump      ",
        least: 1,
        most: 1,
        limits: [SECTOR, B, B, B, B],
    },
    Row {
        kind: Kind::List,
        word: *b"list      ",
        least: 0,
        most: 0,
        limits: BYTES,
    },
];

// The most that the argument behind i others may be.
fn limit(x: &Row, i: usize) -> usize
    ensures { result ≡ Kinds.limit x.now i }
{
    x.limits.get(i).copied().unwrap_or(B)
}

// Whether the first n arguments are what they may be. By number: the arguments are in no slice, and those behind the fifth have no
// limit in the row.
fn arguments_fit(line: &[u8], x: &Row, n: usize) -> bool
    ensures { result ≡ arguments_fit x.now line.now n }
{
    (0..n).all(|i| argument(line, i + 1) <= limit(x, i))
}

// Whether the line is one of the row's. Ruled out: a line with a number too many; one with a larger number than its place allows
// (`must-fail/data_of_513`).
fn fits(line: &[u8], x: &Row) -> bool
    ensures { result ≡ Kinds.fits x.now line.now }
{
    if !has_word(line, &x.word) {
        return false;
    }
    let n = arguments(line);
    if n < x.least {
        return false;
    }
    if x.most < n {
        return false;
    }
    arguments_fit(line, x, n)
}

// What a line asks for, if it is understood.
pub fn kind(line: &[u8]) -> Option<Kind>
    ensures { result ≡ kind_of line.now }
{
    let x = ROWS.iter().find(|x| fits(line, x))?;
    Some(x.kind)
}
