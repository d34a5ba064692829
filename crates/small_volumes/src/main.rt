// Writes every small volume, each once and one after the other: the sound volumes with T = 1, F = 1, P = 2, R = 3, N = 6 and every slot
// zero, by the bytes of the record and then of the header. It takes no input.
#![tactic(auto)]

use enumeration::Small;
use std::io;

// The array is advanced from volume to volume, and each is written.
fn write_volumes(rt: &impl Print, v: &mut [u8]) -> io::Result<()> {
    // No iterator: what it hands out would be the array that it changes next.
    let mut at = 0;
    while let Ok(Some(n)) = enumeration::advance(v, at) {
        console::write(rt, v)?;
        at = n;
    }
    Ok(())
}

fn main(rt: HostRuntime) -> io::Result<()> {
    let mut v = [0u8; Small::LENGTH];
    write_volumes(&rt, &mut v)
}
