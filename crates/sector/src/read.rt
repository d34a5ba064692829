// `part` is a sector of the volume. The others read the fields of a control sector by position, from its 256 bytes.
// The readers of one byte stay a function each: a place as const parameter would show callers the position.
ghost use Rattle.std.specs.Prelude.{◌≡◌, ◌+◌, ◌*◌, ◌≤◌, ◌<◌, length, take, drop};
ghost use Rattle.sector.specs.Layout.{items_offset, items_room, entry_limit};
ghost use Rattle.sector.specs.Sectors.{sector, byte, word};
ghost use Rattle.sector.specs.Decoding.{sectors_in, clients_in, file_count_in, header_sector_in, file_in, state_in, count_in, holder_in, spare_in, map_in};

use crate::layout::{File, Offset, Sector};

// Sector s of the volume.
// That the sector lies in the array is a clause here and wherever one is stored: a type for it would have to know its array, and
// the array is lent for storing.
pub fn part(v: &[u8], s: usize) -> &[u8; Sector::SIZE]
    requires { (256 * s + 256 ≤ length v.now) × (s ≤ 65536) }
    ensures { result.now ≡ sector v.now s }
{
    let at = Sector::SIZE * s;
    let e = at + Sector::SIZE;
    v[at..e].as_array().unwrap()
}

// The two-byte number at i.
pub fn word_at(d: &[u8; Sector::SIZE], i: usize) -> usize
    requires { i < 255 }
    ensures { (result ≡ word d.now i) × (result < 65536) × (byte d.now i < 256) }
{
    usize::from(u16::from_le_bytes([d[i], d[i + 1]]))
}

// Sector 0: the sectors of the volume.
pub fn table_sectors(d: &[u8; Sector::SIZE]) -> usize
    ensures { (result ≡ sectors_in d.now) × (result < 65536) }
{
    word_at(d, Offset::SECTORS)
}

// Its clients.
pub fn table_clients(d: &[u8; Sector::SIZE]) -> u8
    ensures { result ≡ clients_in d.now }
{
    d[Offset::CLIENTS]
}

// Its files.
pub fn table_files(d: &[u8; Sector::SIZE]) -> u8
    ensures { result ≡ file_count_in d.now }
{
    d[Offset::FILES]
}

// The header sector of the file with index i, which counts from 0.
pub fn file_header(d: &[u8; Sector::SIZE], i: usize) -> usize
    requires { i < entry_limit }
    ensures { (result ≡ header_sector_in d.now i) × (result < 65536) }
{
    word_at(d, Offset::ITEMS + Offset::ITEM * i)
}

// Its pages and slots. Ruled out: the slots taken for the pages too (`must-fail/slots_as_pages`); those of the file before it.
pub fn file(d: &[u8; Sector::SIZE], i: usize) -> File
    requires { i < entry_limit }
    ensures { result ≡ file_in d.now i }
{
    let at = Offset::ITEMS + Offset::ITEM * i;
    File {
        pages: d[at + Offset::PAGES],
        slots: d[at + Offset::SLOTS],
    }
}

// An intentions record's state.
pub fn record_state(d: &[u8; Sector::SIZE]) -> u8
    ensures { result ≡ state_in d.now }
{
    d[Offset::STATE]
}

// The number of its entries.
pub fn record_count(d: &[u8; Sector::SIZE]) -> u8
    ensures { result ≡ count_in d.now }
{
    d[Offset::COUNT]
}

// A file header's holder.
pub fn header_holder(d: &[u8; Sector::SIZE]) -> u8
    ensures { result ≡ holder_in d.now }
{
    d[Offset::HOLDER]
}

// The number of slots that it says are left.
pub fn header_spare(d: &[u8; Sector::SIZE]) -> u8
    ensures { result ≡ spare_in d.now }
{
    d[Offset::SPARE]
}

// The slot that its map has for page p.
pub fn map_slot(d: &[u8; Sector::SIZE], p: usize) -> u8
    requires { p < items_room }
    ensures { result ≡ map_in d.now p }
{
    d[Offset::ITEMS + p]
}

// The slots of its first n pages. Ruled out: the last page left out (`must-fail/map_without_last_page`); the
// bytes from the fields on.
pub fn map(d: &[u8; Sector::SIZE], n: u8) -> &[u8]
    requires { n ≤ items_room }
    ensures { result.now ≡ take n (drop items_offset d.now) }
{
    &d[Offset::ITEMS..Offset::ITEMS + usize::from(n)]
}
