// Whether a sector is the encoding of a record or a header, or has a table's frame. All have one frame: mark, fields, zeros,
// items, zeros.
ghost use Rattle.std.specs.Prelude.{◌≡◌, ◌≤◌, drop};
ghost use Rattle.sector.specs.Layout.{items_offset, items_room, entry_limit};
ghost use Rattle.sector.specs.Decoding.{file_count_in};
ghost use Rattle.sector.specs.Encoded.{is_record_encoding, is_header_encoding, all_zero, has_mark, has_header_mark, framed, table_framed, entries_closed};

use crate::layout::{File, Limits, Offset, Sector};
use crate::read::{header_spare, record_count, table_files, word_at};

// Whether the sector has a table's frame. It is a table's encoding if its files name the right headers as well.
pub fn has_table_frame(d: &[u8; Sector::SIZE]) -> bool
    requires { file_count_in d.now ≤ entry_limit }
    ensures { result ≡ table_framed d.now }
{
    has_frame(
        d,
        Sector::TABLE_MARK,
        Offset::FILES + 1,
        Offset::ITEMS + Offset::ITEM * usize::from(table_files(d)),
    )
}

// Whether the sector is an intentions record's encoding.
pub fn is_record(d: &[u8; Sector::SIZE]) -> bool
    ensures { result ≡ is_record_encoding d.now }
{
    let n = usize::from(record_count(d));
    n <= Limits::ENTRIES
        && has_frame(
            d,
            Sector::RECORD_MARK,
            Offset::COUNT + 1,
            Offset::ITEMS + Offset::ITEM * n,
        )
        && entries_closed(d, n)
}

// Whether the sector is the encoding of a header of file x.
pub fn is_header(d: &[u8; Sector::SIZE], x: File) -> bool
    requires { (x.pages ≤ items_room) × (x.pages ≤ x.slots) }
    ensures { result ≡ is_header_encoding x d.now }
{
    header_spare(d) == x.slots - x.pages
        && has_frame(
            d,
            Sector::HEADER_MARK,
            Offset::SPARE + 1,
            Offset::ITEMS + usize::from(x.pages),
        )
}

// Whether the sector has a header's mark.
pub fn has_header_mark(d: &[u8; Sector::SIZE]) -> bool
    ensures { result ≡ has_header_mark d.now }
{
    has_mark(d, Sector::HEADER_MARK)
}

// Whether the sector has the mark with this second byte. The two bytes are compared as one number, as they are read:
// two comparisons would be no plainer.
fn has_mark(d: &[u8; Sector::SIZE], second: u8) -> bool
    ensures { result ≡ has_mark second d.now }
{
    word_at(d, 0) == usize::from(u16::from_le_bytes([Sector::MARK, second]))
}

// Whether the mark is the one with this second byte, and the bytes from `gap` to the items and from `tail` on are zero.
fn has_frame(d: &[u8; Sector::SIZE], second: u8, gap: usize, tail: usize) -> bool
    requires { (gap ≤ items_offset) × (tail ≤ 256) }
    ensures { result ≡ framed second gap tail d.now }
{
    has_mark(d, second) && all_zero(&d[gap..Offset::ITEMS]) && all_zero(&d[tail..])
}

// Whether every byte is zero. All of them are or-ed, with no branch on the way.
fn all_zero(s: &[u8]) -> bool
    ensures { result ≡ all_zero s.now }
{
    s.iter().fold(0, |bits, b| bits | *b) == 0
}

// Whether each of the n entries ends with a zero byte. All of these are or-ed.
fn entries_closed(d: &[u8; Sector::SIZE], n: usize) -> bool
    requires { n ≤ entry_limit }
    ensures { result ≡ entries_closed n (drop items_offset d.now) }
{
    let (entries, _) = d[Offset::ITEMS..].as_chunks::<{ Offset::ITEM }>();
    entries[..n]
        .iter()
        .fold(0, |bits, e| bits | e[Offset::ZERO])
        == 0
}
