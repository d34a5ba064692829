// The numbers of `specs/Layout`: where each byte of a control sector lies, and the limits; and what a sector holds.
// The numbers stay associated constants, a form that the project asks for.
ghost use Rattle.std.specs.Prelude.{◌≡◌, ◌+◌, ◌*◌, ◌≤◌, length};
ghost use Rattle.sector.specs.Layout.{file_limit};

// What every sector has in common.
#[derive(Clone, Copy, Debug, PartialEq, Eq)]
pub struct Sector {}

impl Sector {
    // The bytes of a sector.
    pub const SIZE: usize = 256;
    // The first byte of the mark of every control sector.
    pub const MARK: u8 = 0x4B;
    // The second byte of the mark: of the table, in sector 0.
    pub const TABLE_MARK: u8 = 0x56;
    // Of an intentions record.
    pub const RECORD_MARK: u8 = 0x49;
    // Of a file header.
    pub const HEADER_MARK: u8 = 0x46;
}

// Where a control sector's fields and items lie.
#[derive(Clone, Copy, Debug, PartialEq, Eq)]
pub(crate) struct Offset {}

impl Offset {
    // The table: N, T and F.
    pub const SECTORS: usize = 2;

    pub const CLIENTS: usize = 4;

    pub const FILES: usize = 5;
    // A record: its state and the number of its entries.
    pub const STATE: usize = 2;

    pub const COUNT: usize = 3;
    // A header: its holder and the number of slots left.
    pub const HOLDER: usize = 2;

    pub const SPARE: usize = 3;
    // The items, and the length of one in the table and in a record.
    pub const ITEMS: usize = 8;

    pub const ITEM: usize = 4;
    // In a file's entry, which begins with its header's sector.
    pub const PAGES: usize = 2;

    pub const SLOTS: usize = 3;
    // In an entry of a record, which begins with its file.
    pub const PAGE: usize = 1;

    pub const SLOT: usize = 2;

    pub const ZERO: usize = 3;
}

// The states of an intentions record.
// They stay bytes and no enum: a match on the byte that the volume holds is a form that the project asks for.
#[derive(Clone, Copy, Debug, PartialEq, Eq)]
pub struct State {}

impl State {
    pub const IDLE: u8 = 0;

    pub const OPEN: u8 = 1;

    pub const DECIDED: u8 = 2;
}

// The most that there may be: of a volume's sectors, clients and files, of a file's pages and slots, of a record's entries.
#[derive(Clone, Copy, Debug, PartialEq, Eq)]
pub struct Limits {}

impl Limits {
    pub const SECTORS: usize = 1024;

    pub const CLIENTS: usize = 4;

    pub const FILES: usize = 16;

    pub const PAGES: u8 = 120;

    pub const SLOTS: u8 = 240;

    pub const ENTRIES: usize = 62;
}

// A file of the table: its pages and its slots.
// That a file is in range isn't in the type: the table's test reads files that aren't.
#[derive(Clone, Copy, Debug, PartialEq, Eq)]
pub struct File {
    pub pages: u8,
    pub slots: u8,
}

impl File {
    // The sectors that it takes: its header and its slots. Ruled out: the slots alone (`must-fail/slots_without_header`); a
    // sector for each page too.
    pub fn sectors(self) -> usize
        ensures { result ≡ 1 + self.slots }
    {
        1 + usize::from(self.slots)
    }
}

// An entry of an intentions record: page `page` of file `file` is in its slot `slot`.
#[derive(Clone, Copy, Debug, PartialEq, Eq)]
pub struct Entry {
    pub file: u8,
    pub page: u8,
    pub slot: u8,
}

// A walk over the entries of a record: their bytes, from the next one on. Clone and Copy alone, here and below: nobody compares two
// walks or prints one.
#[derive(Clone, Copy)]
pub struct Entries<'a> {
    pub items: &'a [u8],
}

// A walk over a list of at most 16 files, given as pairs of bytes: pages, slots.
#[derive(Clone, Copy)]
pub struct Files<'a> {
    pub pairs: &'a [u8],
    ghost short: { length pairs.now ≤ 2 * file_limit },
}
