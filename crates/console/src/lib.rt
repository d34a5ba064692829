// Standard input and output of the programs. No contract can say what the system reads and writes; that a count is within the
// buffer is proved.
#![tactic(auto)]

ghost use Rattle.std.specs.Prelude.{◌≤◌, length, IfOk};

use std::io;
use std::io::{Read, Write};

// Reads until the buffer is full or the input ends, and answers how many bytes of the buffer were read. Ruled out: a count past the
// buffer (`must-fail/one_more_than_read`). By hand: `read_exact` refuses a shorter input, and what `io::copy` counts has no bound.
// A count, as `read` answers, and no part of the buffer, which the caller has.
pub fn read_full(rt: &impl Input, buf: &mut [u8]) -> io::Result<usize>
    ensures { IfOk result (λ n. n ≤ length buf.new) }
{
    let mut input = rt.reader();
    let mut n = 0;
    while n < buf.len() {
        let count = input.read(&mut buf[n..])?;
        if count == 0 {
            break;
        }
        n += count;
    }
    Ok(n)
}

// Writes all these bytes.
pub fn write(rt: &impl Print, bytes: &[u8]) -> io::Result<()> {
    io::writer(rt).write_all(bytes)
}
