// Where a page lies, for a client that reads it and for a look; and the free slot that a new page takes.
#![tactic(auto)]

ghost use Rattle.std.specs.Prelude.{◌≡◌, true, ◌||◌, ℕ};
ghost use Rattle.std.proofs.Math.ListN.{get_elem?};
ghost use Rattle.lists.specs.Lists.{any, member};
ghost use Rattle.sector.specs.Contents.{Table, Entry, Record, Header};
ghost use Rattle.sector.specs.Entries.{gives_slot};
ghost use Rattle.volume.specs.Places.{IsPage};
ghost use Rattle.volume.specs.Views.{View};
ghost use Rattle.volume.specs.Volumes.{view};
ghost use Rattle.volume.specs.Sound.{sound};
ghost use Rattle.byteset.specs.Set.{has_byte};
ghost use Rattle.rules.specs.Plans.{entry_for, free_slots, start_for, tried_from, slot_for};
ghost use Rattle.rules.specs.Content.{decided_slot};
ghost use Rattle.slots.specs.Slots.{slot_of, entry_slot};

use byteset::BitSet;
use sector::State;
use volume::{SoundVolume, VolumeClient, VolumeFile};

// A page of a file that there is, and the client that asks for it. Clone and Copy alone: nobody compares two or prints one.
#[derive(Clone, Copy)]
pub struct ClientPage<'a> {
    pub client: VolumeClient<'a>,
    pub file: u8,
    pub page: u8,
    ghost listed: { IsPage (view client.volume.bytes.now).table file page },
}

impl<'a> ClientPage<'a> {
    // Its file. Ruled out: the file after it (`must-fail/file_after`); a file of another volume.
    pub fn of_file(self) -> VolumeFile<'a>
        ensures { (result.number ≡ self.entry.file) × (result.volume.bytes.now ≡ self.entry.client.volume.bytes.now) }
    {
        self.client.volume.tabled().file(self.file)
    }
}

// The slot that the client's record has for page p of file f, be there such a page or not. Ruled out: another page's
// (`must-fail/another_pages_entry`); a slot of a page that the record has no entry for.
pub fn find_entry(c: VolumeClient<'_>, f: u8, p: u8) -> Option<u8>
    ensures { slot_of result ≡ entry_slot (entry_for (view c.entry.volume.bytes.now) c.entry.number f p) }
{
    c.entries()
        .find(|e| e.file == f && e.page == p)
        .map(|e| e.slot)
}

// Takes the slots in the file's map.
fn take_mapped(x: VolumeFile<'_>, taken: &mut BitSet<4>)
    ensures { (y : ℕ) → has_byte taken.new.words y ≡ (has_byte taken.old.words y || member y ((view x.entry.volume.bytes.now).headers x.entry.number).map) }
{
    for r in x.map() {
        taken.insert(usize::from(*r));
    }
}

// Takes the slots that the client's record gives for file f.
fn take_given(c: VolumeClient<'_>, f: u8, taken: &mut BitSet<4>)
    ensures { (y : ℕ) → has_byte taken.new.words y ≡ (has_byte taken.old.words y || any (gives_slot f y) ((view c.entry.volume.bytes.now).records c.entry.number).entries) }
{
    for e in c.entries() {
        if e.file == f {
            taken.insert(usize::from(e.slot));
        }
    }
}

// The slot for a page that the client's record has no entry for: the first above the one that the map gives for it, and from 0 again
// after the last, that is neither in the map nor given for the file in that record. Ruled out: a choice by the map alone, so that
// two pages of one transaction share a slot (`must-fail/free_by_map_alone`); the lowest free slot, another start, or no going
// round (`must-fail/lowest_slot`, `two_above`, `above_another_page`, `not_round`).
pub fn free_slot(x: ClientPage<'_>) -> Option<u8>
    ensures { slot_of result ≡ get_elem? (tried_from (start_for (view x.entry.client.volume.bytes.now) x.entry.file x.entry.page) (free_slots (view x.entry.client.volume.bytes.now) x.entry.client.number x.entry.file)) 0 }
{
    let file = x.of_file();
    let mut taken = BitSet::new();
    take_mapped(file, &mut taken);
    take_given(x.client, x.file, &mut taken);
    let n = file.shape().slots;
    let start = usize::from(file.mapped_slot(x.page)) + 1;
    taken
        .lowest_missing(start, n)
        .or_else(|| taken.lowest_missing(0, n))
}

// The slot that a read of the page by the client takes. Ruled out: the map's slot where the record has the page
// (`must-fail/read_by_map_alone`).
pub fn read_slot(x: ClientPage<'_>) -> u8
    ensures { result ≡ slot_for (view x.entry.client.volume.bytes.now) x.entry.file x.entry.page (entry_for (view x.entry.client.volume.bytes.now) x.entry.client.number x.entry.file x.entry.page) }
{
    match find_entry(x.client, x.file, x.page) {
        Some(r) => r,
        None => x.of_file().mapped_slot(x.page),
    }
}

// The slot that a look at page p of file f takes: the one that its holder's record has for the page, if that is decided, else
// by the map. Ruled out: the map alone (`must-fail/look_by_map_alone`); the entries of a record that is only open
// (`must-fail/look_into_an_open_record`), or of one that the header doesn't name (`rules/must-fail/look_into_another_record`).
pub fn decided_slot(v: SoundVolume<'_>, f: u8, p: u8) -> u8
    requires { IsPage (view v.bytes.now).table f p }
    ensures { result ≡ decided_slot (view v.entry.bytes.now) f p }
{
    let x = v.formed().tabled().file(f);
    let k = x.holder();
    if k == 0 {
        return x.mapped_slot(p);
    }
    let c = v.formed().client(k);
    if c.state() != State::DECIDED {
        return x.mapped_slot(p);
    }
    read_slot(ClientPage {
        client: c,
        file: f,
        page: p,
    })
}
