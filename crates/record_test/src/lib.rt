// An intentions record: it is one, its state fits, its entries name what there is, and no two of them the same page or slot.
#![tactic(auto)]

ghost use Rattle.std.specs.Prelude.{◌≡◌};
ghost use Rattle.sector.specs.Decoding.{state_in, count_in, decode_table};
ghost use Rattle.sector.specs.Walks.{entries_left};
ghost use Rattle.volume.specs.Lawful.{entry_fits};
ghost use Rattle.record_test.specs.Record.{state_fits, entries_fit, InRange, Inserted, record_sound};

use byteset::BitSet;
use sector::{
    Entries, Entry, State, file, file_header, is_record, record_count, record_state, table_files,
};
use table_test::SoundTable;

// Whether the record is sound, by the table.
pub fn record_is_sound(table: SoundTable<'_>, d: &[u8; 256]) -> bool
    ensures { result ≡ record_sound (decode_table table.entry.bytes.now) d.now }
{
    if !is_record(d) {
        return false;
    }
    state_fits(d) & entries_fit(table, Entries::of(d))
}

// Whether the state is one that there is, and fits the number of entries: none if it is idle (0), any if it is open (1) or
// decided (2). Every other byte is refused.
#[tactic(auto, unfolding(crate::specs::Record::state_fits))]
fn state_fits(d: &[u8; 256]) -> bool
    ensures { result ≡ state_fits (state_in d.now) (count_in d.now) }
{
    // The `match` on the byte stays: document 01 names this form.
    let state = record_state(d);
    match state {
        State::IDLE => record_count(d) == 0,
        State::OPEN => true,
        State::DECIDED => true,
        _ => false,
    }
}

// Whether each entry names a file, a page and a slot that there are, and no two of them the same page or the same
// slot. A page, or a slot, stands for the sector that is its number of sectors after its file's header: no two pages share
// one, and no two slots.
#[tactic(auto, using(crate::proofs::RecordLaws::placed, crate::proofs::RecordLaws::entries_none, crate::proofs::RecordLaws::entries_done))]
fn entries_fit(table: SoundTable<'_>, entries: Entries<'_>) -> bool
    ensures { result ≡ entries_fit (decode_table table.entry.bytes.now) (entries_left entries.entry) }
{
    // A record without entries makes no sets: most records have none.
    if entries.items.is_empty() {
        return true;
    }
    let mut pages = BitSet::<16>::new();
    let mut slots = BitSet::<16>::new();
    for e in entries {
        if !entry_fits(table, e) {
            return false;
        }
        if !insert_entry(table, e, &mut pages, &mut slots) {
            return false;
        }
    }
    true
}

// Whether the entry names a file, a page and a slot that there are.
#[tactic(auto, using(crate::proofs::RecordLaws::few_files, crate::proofs::RecordLaws::file_no, lists::proofs::ListLaws::between_true))]
fn entry_fits(table: SoundTable<'_>, e: Entry) -> bool
    ensures { result ≡ entry_fits (decode_table table.entry.bytes.now) e }
{
    let f = usize::from(e.file);
    let here = (1 <= f) & (f <= usize::from(table_files(table.bytes)));
    if !here {
        return false;
    }
    let x = file(table.bytes, f - 1);
    (e.page < x.pages) & (e.slot < x.slots)
}

// Puts the sectors that the entry's page and slot stand for into the two sets. The answer is whether both were absent.
fn insert_entry(
    table: SoundTable<'_>,
    e: Entry,
    pages: &mut BitSet<16>,
    slots: &mut BitSet<16>,
) -> bool
    requires { InRange table.bytes.now e }
    ensures { Inserted table.entry.bytes.now e pages.old.words slots.old.words result pages.new.words slots.new.words }
{
    let header = file_header(table.bytes, usize::from(e.file) - 1);
    let page = pages.insert(header + usize::from(e.page));
    let slot = slots.insert(header + usize::from(e.slot));
    page & slot
}
