// Every small volume: the sound volumes with T = 1, F = 1, P = 2, R = 3, N = 6 and every slot zero, put into a lent array one
// after the other, by the bytes of the record and then of the header.
#![tactic(auto)]

mod candidate;
mod choices;

ghost use Rattle.std.specs.Prelude.{◌≡◌, length};
ghost use Rattle.enumeration.specs.Small.{small_volumes};
ghost use Rattle.enumeration.specs.Advances.{sound_from};
ghost use Rattle.enumeration.specs.Advances;

use crate::candidate::make_candidate;
use crate::choices::Choices;
use sector::File;
use soundness::is_sound;
use std::error::Error;
use std::fmt;

// An array that was to be advanced has another length than a small volume; it is as it was.
#[derive(Clone, Copy, Debug, PartialEq, Eq)]
pub struct BadLength;

impl fmt::Display for BadLength {
    fn fmt<W: fmt::Write>(&self, f: &mut fmt::Formatter<W>) -> fmt::Result {
        f.write_str("not as long as a small volume")
    }
}

impl Error for BadLength {}

// What all small volumes have in common. The numbers stay associated constants, as `sector`'s.
#[derive(Clone, Copy, Debug, PartialEq, Eq)]
pub struct Small {}

impl Small {
    // The bytes of one.
    pub const LENGTH: usize = 1536;
    // The client, and the pages and slots of the file.
    pub const CLIENTS: u8 = 1;

    pub const SHAPE: [u8; 2] = [2, 3];

    pub const FILE: File = File { pages: 2, slots: 3 };
    // The sectors of the record and of the header.
    pub const RECORD: usize = 1;

    pub const HEADER: usize = 2;
}

// How many small volumes there are. Ruled out: one too many (`must-fail/counts_271`); the number of candidates.
#[tactic(auto, using(crate::proofs::CountLaws::counted))]
pub fn count() -> usize
    ensures { result ≡ length small_volumes }
{
    270
}

// The number of the first sound candidate from number `from` on. Candidates are made in the array.
#[tactic(auto, using(crate::proofs::ChoiceLaws::candidates_count, crate::proofs::AdvanceLaws::number_later, crate::proofs::AdvanceLaws::found_here, crate::proofs::AdvanceLaws::found_none))]
fn search(trial: &mut [u8; Small::LENGTH], from: usize) -> Option<usize>
    ensures { result ≡ sound_from from }
{
    for i in from..Choices::CANDIDATES {
        make_candidate(trial, i);
        if is_sound(trial) {
            return Some(i);
        }
    }
    None
}

// The same, with an array of its own.
fn next_sound(from: usize) -> Option<usize>
    ensures { result ≡ sound_from from }
{
    let mut trial = [0u8; Small::LENGTH];
    search(&mut trial, from)
}

// Puts the next small volume into the array: the first one from number `from` on (`PutsNext`), and answers the number at which the
// advance after it is to begin; nothing, if there is no further one and the array is as it was. A walk through all of them
// begins at 0 and goes on at the number answered (`Walks`). Ruled out: a volume that isn't sound
// (`must-fail/soundness_not_tested`), one left out (`candidate_skipped`) or put twice (`volume_twice`, `last_volume_twice`); a
// byte of the array changed where no volume is put.
#[tactic(auto, using(crate::proofs::ChoiceLaws::candidates_count, crate::proofs::AdvanceLaws::found_some, crate::proofs::AdvanceLaws::advance_refuses, crate::proofs::AdvanceLaws::advance_ends))]
pub fn advance(v: &mut [u8], from: usize) -> Result<Option<usize>, BadLength>
    ensures { record { answer = result; volume = v.new } ≡ Advances.advance v.old from }
{
    let v = v.as_mut_array().ok_or(BadLength)?;
    let Some(i) = next_sound(from) else {
        return Ok(None);
    };
    make_candidate(v, i);
    Ok(Some(i + 1))
}
