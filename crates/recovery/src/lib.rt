// Recovery of a client's transaction: every file that it holds is freed, redone first if the record is decided, and the
// record is made idle last.
#![tactic(auto)]

mod release;

pub use release::{put_empty_record, recover};
