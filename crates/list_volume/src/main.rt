// Lists the volume on standard input: a line for each client and one for each file, or `too long`, or `not sound`.
#![tactic(auto)]

use listing::Listing;
use std::io;

fn main(rt: HostRuntime) -> io::Result<()> {
    // One byte more than the longest volume that is listed.
    let mut input = [0u8; Listing::LONGEST + 1];
    let n = console::read_full(&rt, &mut input)?;
    let mut text = [0u8; Listing::ROOM];
    let count = listing::print(&input[..n], &mut text);
    console::write(&rt, &text[..count])
}
