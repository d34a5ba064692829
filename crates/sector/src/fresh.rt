// The control sectors of a new volume, and the record of a new transaction, each built in the working sector lent, which is made zero
// first: so none asks what it holds.
ghost use Rattle.std.specs.Prelude.{◌≡◌, [], ◌∷◌, ◌+◌, ◌/◌, ◌%◌, ◌≤◌, ◌<◌, set};
ghost use Rattle.lists.specs.Lists.{from};
ghost use Rattle.sector.specs.Layout.{items_offset, items_room, item_length};
ghost use Rattle.sector.specs.Contents.{File, new_header};
ghost use Rattle.sector.specs.Sectors.{word_bytes};
ghost use Rattle.sector.specs.Encoding.{file_bytes, encode_table, encode_record, encode_header};
ghost use Rattle.sector.specs.Walks.{files_left};
ghost use Rattle.sector.specs.Puts.{Puts};

use crate::build::zeros;
use crate::layout::{File, Files, Offset, Sector};

// The two bytes of a number, from byte `at` on.
// By its place, here and in `put_entry`: a lent part would be no plainer, since `Puts` says what is where in the whole sector.
fn put_word(buf: &mut [u8; Sector::SIZE], at: usize, n: usize)
    requires { (at < 255) × (n < 65536) }
    ensures { buf.new ≡ set (set buf.old at (n % 256)) (at + 1) (n / 256) }
{
    // `as`, since it fits by proof: `try_from` would only add an `unwrap`.
    let [low, high] = (n as u16).to_le_bytes();
    buf[at] = low;
    buf[at + 1] = high;
}

// A file's entry in the table, from byte `at` on.
fn put_entry(buf: &mut [u8; Sector::SIZE], at: usize, header: usize, x: File)
    requires { (at + item_length ≤ 256) × (header < 65536) }
    ensures { Puts at (word_bytes header (x.pages ∷ x.slots ∷ [])) buf.old buf.new }
{
    put_word(buf, at, header);
    buf[at + Offset::PAGES] = x.pages;
    buf[at + Offset::SLOTS] = x.slots;
}

// The entries of all files in the table; the header of the first one is sector `first`.
fn put_entries(buf: &mut [u8; Sector::SIZE], first: usize, files: Files<'_>)
    requires { first ≤ 256 }
    ensures { Puts items_offset (file_bytes first (files_left files.entry)) buf.old buf.new }
{
    // `at` is counted beside `h`, as the definition goes on from both: `enumerate` would give a number to multiply.
    let mut h = first;
    let mut at = Offset::ITEMS;
    for x in files {
        put_entry(buf, at, h, x);
        at += Offset::ITEM;
        h += x.sectors();
    }
}

// The table of a new volume.
pub fn new_table(buf: &mut [u8; Sector::SIZE], sectors: usize, clients: u8, files: Files<'_>)
    requires { sectors < 65536 }
    ensures { buf.new ≡ encode_table (record { sectors = sectors; clients = clients; files = files_left files.entry }) }
{
    *buf = zeros();
    buf[0] = Sector::MARK;
    buf[1] = Sector::TABLE_MARK;
    put_word(buf, Offset::SECTORS, sectors);
    buf[Offset::CLIENTS] = clients;
    // `as`, since it fits by proof.
    buf[Offset::FILES] = (files.pairs.len() / 2) as u8;
    put_entries(buf, usize::from(clients) + 1, files);
}

// An intentions record with no entries.
pub fn empty_record(buf: &mut [u8; Sector::SIZE], state: u8)
    ensures { buf.new ≡ encode_record (record { state = state; entries = [] }) }
{
    *buf = zeros();
    buf[0] = Sector::MARK;
    buf[1] = Sector::RECORD_MARK;
    buf[Offset::STATE] = state;
}

// The header of a new file: it has no holder, page p is in slot p, and the slots above the last page's are left.
pub fn new_header(buf: &mut [u8; Sector::SIZE], x: File)
    requires { (x.pages ≤ items_room) × (x.pages ≤ x.slots) }
    ensures { buf.new ≡ encode_header x (new_header x) }
{
    *buf = zeros();
    buf[0] = Sector::MARK;
    buf[1] = Sector::HEADER_MARK;
    buf[Offset::SPARE] = x.slots - x.pages;
    put_map(buf, x.pages);
}

// The map of a new file.
fn put_map(buf: &mut [u8; Sector::SIZE], pages: u8)
    requires { pages ≤ items_room }
    ensures { Puts items_offset (from 0 pages) buf.old buf.new }
{
    // By number, since the number is what is written.
    for p in 0..pages {
        buf[Offset::ITEMS + usize::from(p)] = p;
    }
}
