// Commands: the calls of scripts with their arguments, and one function that performs them. A step of a script of bytes
// and a line of a script of text each become a command. Also the lines that show volume or session, or change them by hand.
#![tactic(auto)]

pub mod inspect;
pub mod lines;
mod performer;

use interface::{Outcome, Refusal, Session};
pub use performer::{page, perform};
pub use script::Action;

// A call with its arguments; those that it doesn't take are ignored. `crash`: the supply failed before it, so it is
// given a new session. What a write stores is lent separately.
#[derive(Clone, Copy, Debug, PartialEq, Eq)]
pub struct Command {
    pub action: Action,
    pub crash: bool,
    pub client: u8,
    pub file: u8,
    pub page: u8,
    pub budget: u8,
}

impl Command {
    // The budget of a line that leaves it out: more stores than any call makes.
    // It is no `Option`: the papers say that a budget left out is 255.
    pub const BUDGET: u8 = 255;
}

// What a command answered.
#[derive(Clone, Copy, Debug, PartialEq, Eq)]
pub enum Told {
    Call(Result<Outcome, Refusal>),
    Query(Result<u16, Refusal>),
}

// Its answer, and the session last handed back: a question hands back none, so it is the one from before it.
#[derive(Clone, Copy, Debug, PartialEq, Eq)]
pub struct Performed {
    pub told: Told,
    pub session: Session,
}
