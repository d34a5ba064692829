// A file header: it is one, the slots of its map are below the file's number of slots and differ, and its holder fits.
#![tactic(auto)]

ghost use Rattle.std.specs.Prelude.{◌≡◌, ◌≤◌};
ghost use Rattle.sector.specs.Layout.{page_limit};
ghost use Rattle.sector.specs.Decoding.{file_count_in, decode_table, decode_header};
ghost use Rattle.sector.specs.Walks.{entries_left};
ghost use Rattle.header_test.specs.Header.{Scanned, slot_apart, slots_apart, holder_test, header_sound};
ghost use Rattle.header_test.specs.Tested.{Tested};

use byteset::BitSet;
use sector::{
    Entries, Entry, File, State, file, file_header, header_holder, is_header, map, part,
    record_state, table_clients,
};

// A volume and its sector 0, with all tested but the headers: it knows more than `volume::TabledVolume`, what the tests of the
// records found. Clone and Copy alone: nobody compares two or prints one.
#[derive(Clone, Copy)]
pub struct TestedVolume<'a> {
    pub v: &'a [u8],
    pub table: &'a [u8; 256],
    ghost tested: { Tested v.now table.now },
}

impl TestedVolume<'_> {
    // Whether the header of file f is sound.
    pub fn header_is_sound(&self, f: u8) -> bool
        requires { (1 ≤ f) × (f ≤ file_count_in self.now.table.now) }
        ensures { result ≡ header_sound (decode_table self.now.table.now) self.now.v.now f }
    {
        let i = usize::from(f) - 1;
        let x = file(self.table, i);
        let d = part(self.v, file_header(self.table, i));
        if !is_header(d, x) {
            return false;
        }
        let Some(seen) = slots_of_map(d, x) else {
            return false;
        };
        self.holder_fits(header_holder(d), f, &seen)
    }

    // Whether k may hold file f, whose map has the slots in `seen`: nobody does, or client k with a record that is not idle and
    // gives none of these slots.
    #[tactic(auto, using(crate::proofs::HeaderLaws::holder_none, crate::proofs::HeaderLaws::holder_high))]
    fn holder_fits(&self, k: u8, f: u8, seen: &BitSet<4>) -> bool
        ensures { result ≡ holder_test (decode_table self.now.table.now) self.now.v.now k f seen.now.words }
    {
        if k == 0 {
            return true;
        }
        if table_clients(self.table) < k {
            return false;
        }
        let d = part(self.v, usize::from(k));
        (record_state(d) != State::IDLE) & slots_apart(Entries::of(d), f, seen)
    }
}

// The set of the slots of the map of file x, if they are below the file's number of slots and no two of them are the same.
fn slots_of_map(d: &[u8; 256], x: File) -> Option<BitSet<4>>
    requires { x.pages ≤ page_limit }
    ensures { Scanned x.slots (decode_header x d.now).map result }
{
    let mut seen = BitSet::<4>::new();
    for r in map(d, x.pages) {
        if x.slots <= *r {
            return None;
        }
        if !seen.insert(usize::from(*r)) {
            return None;
        }
    }
    Some(seen)
}

// Whether none of the entries for file f gives a slot in `seen`.
// The file's number and its slots stay two: a struct for three private functions would be no plainer.
fn slots_apart(mut entries: Entries<'_>, f: u8, seen: &BitSet<4>) -> bool
    ensures { result ≡ slots_apart f seen.now.words (entries_left entries.entry) }
{
    entries.all(|e| slot_apart(e, f, seen))
}

// Whether the entry is for another file than f, or gives a slot that is not in `seen`.
fn slot_apart(e: Entry, f: u8, seen: &BitSet<4>) -> bool
    ensures { result ≡ slot_apart f seen.now.words e }
{
    e.file != f || !seen.has(usize::from(e.slot))
}
