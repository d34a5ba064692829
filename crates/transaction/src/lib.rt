// The stores of each call, for a call that isn't refused: each function requires what the tests of its call establish,
// and makes the stores of the call's plan, as many as the budget allows.
// They store, so they are lent the bytes, with `WellFormed` in a clause (`stores` says why).
// `claim`, `decide` and `put_entry` each copy a control sector, edit it and put it: one over a closure for the edit would say the
// three updates in its contract, and be no plainer.
#![tactic(auto)]

mod abort;
mod begin;
mod commit;
mod open;
mod write;

pub use abort::abort_stores;
pub use begin::begin_stores;
pub use commit::commit_stores;
pub use open::{open_read_stores, open_stores};
pub use write::{write_again, write_new};
