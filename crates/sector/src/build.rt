// The working sector: 256 bytes in which a control sector is built before its store. The contract of each edit is about
// encodings, so that no caller sees the position of a byte.
// They stay functions of an array: the project asks for a working sector `[0; 256]`, and a struct around it would be no plainer.
// The setters stay one for each field: each contract is about another kind of sector.
ghost use Rattle.std.specs.Prelude.{◌≡◌, true, ◌<◌, length, set};
ghost use Rattle.sector.specs.Layout.{items_room, entry_limit};
ghost use Rattle.sector.specs.Contents.{File, Record, Header, appended};
ghost use Rattle.sector.specs.Sectors.{zero_sector};
ghost use Rattle.sector.specs.Entries.{redone, pages_below, file_pages_below};
ghost use Rattle.sector.specs.Encoding.{encode_record, encode_header};
ghost use Rattle.sector.specs.Decoding.{count_in};
ghost use Rattle.sector.specs.Walks.{entries_left};
ghost use Rattle.sector.specs.Edits.{entry_applied};

use crate::layout::{Entries, Entry, Offset, Sector};

// A working sector of zeros.
pub fn zeros() -> [u8; Sector::SIZE]
    ensures { result ≡ zero_sector }
{
    [0; Sector::SIZE]
}

// The record's state is changed.
pub fn set_state(buf: &mut [u8; Sector::SIZE], state: u8)
    ensures buf_after { (r : Record) → buf.old ≡ encode_record r
        → buf.new ≡ encode_record (record { state = state; entries = r.entries }) }
{
    buf[Offset::STATE] = state;
}

// The record gets one more entry.
// Room is a clause: a type for a record with room would end with this edit.
pub fn append_entry(buf: &mut [u8; Sector::SIZE], entry: Entry)
    requires { count_in buf.old < entry_limit }
    ensures buf_after { (r : Record) → buf.old ≡ encode_record r
        → buf.new ≡ encode_record (appended r entry) }
{
    let count = buf[Offset::COUNT];
    let at = Offset::ITEMS + Offset::ITEM * usize::from(count);
    buf[Offset::COUNT] = count + 1;
    buf[at] = entry.file;
    buf[at + Offset::PAGE] = entry.page;
    buf[at + Offset::SLOT] = entry.slot;
}

// The header's holder is changed.
pub fn set_holder(buf: &mut [u8; Sector::SIZE], k: u8)
    ensures buf_after { (x : File) (h : Header) → buf.old ≡ encode_header x h
        → buf.new ≡ encode_header x (record { holder = k; map = h.map }) }
{
    buf[Offset::HOLDER] = k;
}

// The header's map gets another slot for page p.
// The page's range is a clause of three functions: a number type for it would be made and taken apart in each.
pub fn set_map_slot(buf: &mut [u8; Sector::SIZE], p: usize, slot: u8)
    requires { p < items_room }
    ensures buf_after { (x : File) (h : Header) → buf.old ≡ encode_header x h → p < length h.map
        → buf.new ≡ encode_header x (record { holder = h.holder; map = set h.map p slot }) }
{
    buf[Offset::ITEMS + p] = slot;
}

// The header's map gets the entry's slot for its page, if the entry is for file f.
fn apply_entry(buf: &mut [u8; Sector::SIZE], e: Entry, f: u8)
    requires { e.page < items_room }
    ensures { buf.new ≡ entry_applied f e buf.old }
{
    if e.file == f {
        buf[Offset::ITEMS + usize::from(e.page)] = e.slot;
    }
}

// The entries for file f are applied to the header's map, in order.
pub fn redo_map(buf: &mut [u8; Sector::SIZE], entries: Entries<'_>, f: u8)
    requires { pages_below items_room (entries_left entries) ≡ true }
    ensures buf_after { (x : File) (h : Header) → buf.old ≡ encode_header x h
        → file_pages_below f (length h.map) (entries_left entries.entry) ≡ true
        → buf.new ≡ encode_header x (record { holder = h.holder; map = redone f (entries_left entries.entry) h.map }) }
{
    for e in entries {
        apply_entry(buf, e, f);
    }
}
