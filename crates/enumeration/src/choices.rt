// The choices of `specs/Choices`, each by its number in the list there.
ghost use Rattle.std.specs.Prelude.{◌≡◌, [], ◌<◌, length, get_or};
ghost use Rattle.volume.specs.WellFormed.{no_entry};
ghost use Rattle.enumeration.specs.Choices.{entry_choices, map_choices};

use sector::Entry;

// How many there are. The numbers stay associated constants, as `sector`'s.
#[derive(Clone, Copy, Debug, PartialEq, Eq)]
pub struct Choices {}

impl Choices {
    // Entries, and lists of entries.
    pub const ENTRIES: usize = 6;

    pub const LISTS: usize = 43;
    // Maps, and headers.
    pub const MAPS: usize = 9;

    pub const HEADERS: usize = 18;
    // Records with headers.
    pub const CANDIDATES: usize = 2322;
}

// The page and the slot of each entry.
// Rows of two bytes, since each entry's file is 1: six `Entry` written out would be no plainer.
const ENTRY_ROWS: [[u8; 2]; 6] = [[0, 0], [0, 1], [0, 2], [1, 0], [1, 1], [1, 2]];

// The slots of both pages in each map.
const MAP_ROWS: [[u8; 2]; 9] = [
    [0, 0],
    [0, 1],
    [0, 2],
    [1, 0],
    [1, 1],
    [1, 2],
    [2, 0],
    [2, 1],
    [2, 2],
];

// Entry e, of file 1.
#[tactic(auto, using(crate::proofs::ChoiceLaws::entries_count))]
pub fn entry_at(e: usize) -> Entry
    requires { e < length entry_choices }
    ensures { result ≡ get_or entry_choices e no_entry }
{
    let [page, slot] = ENTRY_ROWS[e];
    Entry {
        file: 1,
        page,
        slot,
    }
}

// Map m.
#[tactic(auto, using(crate::proofs::ChoiceLaws::maps_count))]
pub fn map_at(m: usize) -> [u8; 2]
    requires { m < length map_choices }
    ensures { result ≡ get_or map_choices m [] }
{
    MAP_ROWS[m]
}
