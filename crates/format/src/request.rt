// Whether what is asked for can be laid out: the array's length, the number of clients, and the list of files.
ghost use Rattle.std.specs.Prelude.{◌≡◌, ◌*◌, ◌≤◌, length};
ghost use Rattle.lists.specs.Lists.{every};
ghost use Rattle.sector.specs.Contents.{first_header};
ghost use Rattle.volume.specs.Places.{sector_after};
ghost use Rattle.volume.specs.Lawful.{file_fits};
ghost use Rattle.volume.specs.Format.{length_fits, shape_fits};
ghost use Rattle.sector.specs.Walks.{files_left};

use sector::{Files, Limits, Sector};
use volume::file_fits;

// Whether n bytes are a whole number of sectors, and not too many.
#[tactic(auto, unfolding(volume::specs::Format::length_fits))]
pub fn length_fits(n: usize) -> bool
    ensures { result ≡ length_fits n }
{
    (n % Sector::SIZE == 0) & (n / Sector::SIZE <= Limits::SECTORS)
}

// Whether the number of clients and the list of files are in range.
#[tactic(auto, unfolding(volume::specs::Format::shape_fits, lists::specs::Lists::all))]
pub fn shape_fits(clients: u8, shape: &[u8]) -> bool
    ensures { result ≡ shape_fits clients shape.now }
{
    if clients < 1 {
        return false;
    }
    if Limits::CLIENTS < usize::from(clients) {
        return false;
    }
    if shape.len() % 2 != 0 {
        return false;
    }
    if shape.len() < 2 {
        return false;
    }
    if 2 * Limits::FILES < shape.len() {
        return false;
    }
    files_fit(Files::of(shape))
}

// Whether every file of the list is in range.
fn files_fit(mut files: Files<'_>) -> bool
    ensures { result ≡ every file_fits (files_left files.entry) }
{
    files.all(|x| file_fits(x))
}

// The sector after the last file.
#[tactic(auto, using(crate::proofs::RequestLaws::after_turn, crate::proofs::RequestLaws::after_end, sector::proofs::ShapeLaws::files_count))]
pub fn end_sector(clients: u8, files: Files<'_>) -> usize
    ensures { result ≡ sector_after (first_header clients) (files_left files.entry) }
{
    let mut h = usize::from(clients) + 1;
    for x in files {
        h += x.sectors();
    }
    h
}
