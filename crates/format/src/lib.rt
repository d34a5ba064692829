// Format: a new volume is laid out in the lent array, with the clients and files asked for, or nothing is changed.
#![tactic(auto)]

mod layout;
mod request;

ghost use Rattle.std.specs.Prelude.{◌≡◌};
ghost use Rattle.volume.specs.Format;
ghost use Rattle.format.specs.Outcomes.{formatted};

use crate::layout::lay_out;
use crate::request::{end_sector, length_fits, shape_fits};
use interface::Refusal;
use sector::{Files, Sector};

// Lays out a volume for `clients` clients and the files of `shape`, a list of pairs: the pages of a file, then its
// slots. The array may have any length and content before. Ruled out: a byte of the array left as it was on success, be
// it in the last sector (`must-fail/last_sector_kept`); the answer that the files need too many sectors where one of
// them is also out of range.
#[tactic(auto, using(crate::proofs::FormatLaws::shape_short), unfolding(volume::specs::Format::format, volume::specs::Format::format_tests, lists::specs::Lists::first, volume::specs::Format::end_fits))]
pub fn format(v: &mut [u8], clients: u8, shape: &[u8]) -> Result<(), Refusal>
    ensures { formatted result v.new ≡ Format.format v.old clients shape.now }
{
    if !length_fits(v.len()) {
        return Err(Refusal::BadVolumeLength);
    }
    if !shape_fits(clients, shape) {
        return Err(Refusal::BadShape);
    }
    let files = Files::of(shape);
    if v.len() / Sector::SIZE < end_sector(clients, files) {
        return Err(Refusal::TooFewSectors);
    }
    lay_out(v, clients, files);
    Ok(())
}
