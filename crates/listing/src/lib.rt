// The listing of a volume, for people at the bench: a line for each client and one for each file, in ASCII.
#![tactic(auto)]

mod lines;

ghost use Rattle.std.specs.Prelude.{◌≡◌, ◌≤◌, length, take};
ghost use Rattle.volume.specs.Volumes.{view};
ghost use Rattle.volume.specs.Listing.{listing, printed};
ghost use Rattle.text.specs.Writes.{HasRoom, Wrote};
ghost use Rattle.listing.specs.Listed.{listed, to_print};

use crate::lines::{list_clients, list_files};
use soundness::sound_volume;
use std::error::Error;
use std::fmt;
use text::Writer;
use volume::SoundVolume;

// What every listing has in common. They stay associated constants, as `sector`'s (`Sector::SIZE`, `Limits::ENTRIES`).
#[derive(Clone, Copy, Debug, PartialEq, Eq)]
pub struct Listing {}

impl Listing {
    // The bytes that any listing fits in: 4 lines of at most 18, and 16 of at most 37.
    pub const ROOM: usize = 664;
    // The longest volume that the listing program takes.
    pub const LONGEST: usize = 65536;
}

// Why there is no listing. Nothing is written.
#[derive(Clone, Copy, Debug, PartialEq, Eq)]
pub enum ListError {
    // The volume is not sound.
    NotSound,
    // There is too little room for the longest listing.
    NoRoom,
}

impl fmt::Display for ListError {
    fn fmt<W: fmt::Write>(&self, f: &mut fmt::Formatter<W>) -> fmt::Result {
        f.write_str(match self {
            ListError::NotSound => "not sound",
            ListError::NoRoom => "no room",
        })
    }
}

impl Error for ListError {}

// Writes the lines of a sound volume.
fn list_lines(v: SoundVolume<'_>, w: &mut Writer<'_>)
    requires { HasRoom w.old Listing.ROOM }
    ensures { Wrote (listing (view v.entry.bytes.now)) w.old w.new }
{
    let v = v.formed();
    list_clients(v, w);
    list_files(v.tabled(), w);
}

// Writes the listing of the volume to the front of `out`, and leaves the rest as it was. Ruled out: the line of the
// last file left out (`must-fail/skips_the_last_file`); anything written if the volume is not sound.
#[tactic(auto, unfolding(crate::specs::Listed::listed))]
pub fn list(v: &[u8], out: &mut [u8]) -> Result<usize, ListError>
    ensures { (record { outcome = result; out = out.new }) ≡ listed v.now out.old }
{
    if out.len() < Listing::ROOM {
        return Err(ListError::NoRoom);
    }
    let Some(v) = sound_volume(v) else {
        return Err(ListError::NotSound);
    };
    let mut w = Writer { out, at: 0 };
    list_lines(v, &mut w);
    Ok(w.at)
}

// Writes what the listing program prints.
#[tactic(auto, unfolding(volume::specs::Listing::printed))]
fn print_text(v: &[u8], w: &mut Writer<'_>)
    requires { HasRoom w.old Listing.ROOM }
    ensures { Wrote (printed v.now) w.old w.new }
{
    if Listing::LONGEST < v.len() {
        w.put(b"too long\n");
        return;
    }
    match sound_volume(v) {
        Some(v) => list_lines(v, w),
        None => w.put(b"not sound\n"),
    }
}

// Writes what the listing program prints to the front of `out`, and hands back its length: `too long`, `not sound`, or
// the listing. It is 0 without room for the longest listing, and no `Option`, which is no plainer: a caller writes out as
// many bytes as it is told. Ruled out: a volume of 65,537 bytes listed (`must-fail/lists_a_long_one`); nothing printed if
// the volume is not sound.
#[tactic(auto, unfolding(crate::specs::Listed::to_print))]
pub fn print(v: &[u8], out: &mut [u8]) -> usize
    ensures out_after { (record { count = result; out = out.new }) ≡ to_print v.now out.old }
    ensures upper_bound { (result ≤ length out.new) × (result ≡ length (take result out.new)) }
{
    if out.len() < Listing::ROOM {
        return 0;
    }
    let mut w = Writer { out, at: 0 };
    print_text(v, &mut w);
    w.at
}
