// The table: it is one, its counts and its files fit, and all ends at or before the end of the volume.
#![tactic(auto)]

ghost use Rattle.std.specs.Prelude.{◌≡◌, true, ◌≤◌};
ghost use Rattle.sector.specs.Layout.{entry_limit};
ghost use Rattle.sector.specs.Decoding.{file_count_in};
ghost use Rattle.table_test.specs.Table.{counts_fit, table_sound, files_sound};

use sector::{
    Limits, file, file_header, has_table_frame, table_clients, table_files, table_sectors,
};
use volume::file_fits;

// A sector 0 whose table was found sound. Clone and Copy alone: nobody compares two or prints one.
#[derive(Clone, Copy)]
pub struct SoundTable<'a> {
    pub bytes: &'a [u8; 256],
    ghost sound: { table_sound bytes.now ≡ true },
}

// Whether the table in sector 0 is sound.
#[tactic(auto, using(crate::proofs::TableLaws::file_count, crate::proofs::TableLaws::counts_no, crate::proofs::TableLaws::frame_no))]
pub fn table_is_sound(d: &[u8; 256]) -> bool
    ensures { result ≡ table_sound d.now }
{
    if !counts_fit(d) {
        return false;
    }
    if !has_table_frame(d) {
        return false;
    }
    files_are_sound(d, usize::from(table_clients(d)) + 1)
}

// Whether there are not too many sectors, clients and files, and at least one client and one file.
fn counts_fit(d: &[u8; 256]) -> bool
    ensures { result ≡ counts_fit d.now }
{
    let sectors = table_sectors(d);
    let clients = usize::from(table_clients(d));
    let files = usize::from(table_files(d));
    (sectors <= Limits::SECTORS)
        & (((1 <= clients) & (clients <= Limits::CLIENTS))
            & ((1 <= files) & (files <= Limits::FILES)))
}

// Whether each of the files fits and has its header where the files before end, the first one in sector `first`, and the last
// one ends at or before the end of the volume.
fn files_are_sound(d: &[u8; 256], first: usize) -> bool
    requires { (file_count_in d.now ≤ entry_limit) × (first ≤ 256) }
    ensures { result ≡ files_sound first d.now }
{
    // By number: the header's sector and the file are two readings of the table's entry i, and a walk that gives both would be a
    // third type of its own, with laws for this one use.
    let mut h = first;
    for i in 0..usize::from(table_files(d)) {
        if file_header(d, i) != h {
            return false;
        }
        let x = file(d, i);
        if !file_fits(x) {
            return false;
        }
        h += x.sectors();
    }
    h <= table_sectors(d)
}
