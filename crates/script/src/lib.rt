// Scripts of calls as text: the fields of a line, what it asks for, and bytes in hexadecimal.
#![tactic(auto)]

pub mod fields;
pub mod kinds;
pub mod texts;

use sector::{Limits, Sector};

// What every script has in common. Its numbers stay associated constants, as `sector`'s.
#[derive(Clone, Copy, Debug, PartialEq, Eq)]
pub struct Script {}

impl Script {
    // The bytes of the longest one.
    pub const LONGEST: usize = 65536;
    // The bytes that it has for its volume: a sector more than the longest volume, so that format can refuse that.
    pub const VOLUME: usize = Sector::SIZE * (Limits::SECTORS + 1);
    // The most bytes of a write's data: more than a page, so that a write can refuse that.
    pub const DATA: usize = 2 * Sector::SIZE;
    // The most numbers of a format's list: more than two for each file, so that format can refuse that.
    pub const SHAPE: usize = 64;
}

// Which call a command is.
#[derive(Clone, Copy, Debug, PartialEq, Eq)]
pub enum Action {
    Begin,
    Open,
    OpenRead,
    Write,
    Commit,
    Abort,
    Read,
    Look,
}

// What a line asks for.
#[derive(Clone, Copy, Debug, PartialEq, Eq)]
pub enum Kind {
    Format,
    Call(Action),
    // How many slots are left.
    Spare,
    // The session is set.
    Session,
    // The session is shown.
    ShowSession,
    // A reading hold is added to the session.
    Reading,
    Poke,
    Dump,
    List,
}

// A row of the table of lines: what the line asks for, its word with spaces behind it, the least and the most arguments, and the
// most that each of the first five may be; any other is a byte. The word isn't a `&'static [u8]`: a reference has an address, and
// the definition's rows have none.
#[derive(Clone, Copy, Debug, PartialEq, Eq)]
pub struct Row {
    pub kind: Kind,
    pub word: [u8; 10],
    pub least: usize,
    pub most: usize,
    pub limits: [usize; 5],
}
