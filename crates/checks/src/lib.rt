// The tests of the calls: each answers the first refusal that applies, or hands on what it found, for the call to go on with.
// Volume, session and client come as three, as a call has them: `check_client` makes them one `Caller`. Which client, file and page
// are handed on is said against the arguments, so each says it.
#![tactic(auto)]

mod call;
mod caller;
mod look;
mod open;
mod page;
mod spare;
mod write;

pub use call::{check_active, check_begin};
pub use caller::{Caller, Opening};
pub use look::check_look;
pub use open::{check_open, check_open_read};
pub use page::{check_read, holds_either};
pub use spare::check_spare;
pub use write::check_write;

// Where the page of a write goes.
#[derive(Clone, Copy, Debug, PartialEq, Eq)]
pub enum Target {
    // The slot that the record has for the page already.
    Again(u8),
    // The slot that a new entry takes.
    New(u8),
}
