// Walks over what lies in items of one length: the entries of a record, and the files of a list.
// Two walks, not one over the item's type: that would take a trait with laws, longer than both `next`.
ghost use Rattle.std.specs.Prelude.{◌≡◌, ◌≤◌, ◌*◌, length};
ghost use Rattle.std.specs.Iterator.{YieldsFirst, item_count};
ghost use Rattle.sector.specs.Layout.{file_limit, entry_limit};
ghost use Rattle.sector.specs.Decoding.{count_in, decode_record};
ghost use Rattle.sector.specs.Shapes.{files_of};
ghost use Rattle.sector.specs.Walks.{entries_left, files_left};

use crate::layout::{Entries, Entry, File, Files, Offset, Sector};
use crate::read::record_count;

impl<'a> Entries<'a> {
    // The entries of a record, in order. Ruled out: the last one left out (`must-fail/last_entry_not_walked`); bytes after
    // the last one taken for an entry.
    pub fn of(d: &'a [u8; Sector::SIZE]) -> Self
        requires { count_in d.now ≤ entry_limit }
        ensures { entries_left result ≡ (decode_record d.now).entries }
    {
        let end = Offset::ITEMS + Offset::ITEM * usize::from(record_count(d));
        Entries {
            items: &d[Offset::ITEMS..end],
        }
    }
}

impl Iterator for Entries<'_> {
    type Item = Entry;

    ghost next_gives = { YieldsFirst entries_left };

    ghost remaining = { item_count entries_left };

    fn next(&mut self) -> Option<Entry> {
        let (first, rest) = self.items.split_first_chunk::<{ Offset::ITEM }>()?;
        self.items = rest;
        Some(Entry {
            file: first[0],
            page: first[Offset::PAGE],
            slot: first[Offset::SLOT],
        })
    }
}

impl<'a> Files<'a> {
    // The files of a list of pairs, in order. Ruled out: pages and slots changed over (`must-fail/slots_before_pages`); a last byte
    // without its pair taken for a file.
    pub fn of(shape: &'a [u8]) -> Self
        requires { length shape.now ≤ 2 * file_limit }
        ensures { files_left result ≡ files_of shape.now }
    {
        Files { pairs: shape }
    }
}

impl Iterator for Files<'_> {
    type Item = File;

    ghost next_gives = { YieldsFirst files_left };

    ghost remaining = { item_count files_left };

    fn next(&mut self) -> Option<File> {
        let (pair, rest) = self.pairs.split_first_chunk::<2>()?;
        self.pairs = rest;
        Some(File {
            pages: pair[0],
            slots: pair[1],
        })
    }
}
