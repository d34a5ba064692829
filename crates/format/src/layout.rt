// The array of a new volume: zeros, into which the control sectors are stored, rising by sector.
ghost use Rattle.std.specs.Prelude.{◌≡◌, true, ◌+◌, ◌*◌, ◌≤◌, length};
ghost use Rattle.lists.specs.Lists.{every};
ghost use Rattle.sector.specs.Layout.{items_room, sector_limit};
ghost use Rattle.sector.specs.Contents.{idle_record, new_header};
ghost use Rattle.sector.specs.Sectors.{store_at};
ghost use Rattle.sector.specs.Encoding.{encode_table, encode_record, encode_header};
ghost use Rattle.volume.specs.Places.{sector_after};
ghost use Rattle.volume.specs.Lawful.{file_fits};
ghost use Rattle.sector.specs.Walks.{files_left};
ghost use Rattle.volume.specs.Format.{table_for, repeated, new_files, new_volume};
ghost use Rattle.format.specs.Requests.{Fits};
ghost use Rattle.sector.specs.Puts.{Puts};

use sector::{File, Files, Sector, State, empty_record, new_header, new_table, store, zeros};

// The table is stored in sector 0.
// What builds and stores stays one function for each kind of sector: over a closure, the contract would be all of them again.
fn put_table(v: &mut [u8], clients: u8, files: Files<'_>)
    requires { (256 ≤ length v.old) × (length v.old ≤ 256 * sector_limit) }
    ensures { v.new ≡ store_at v.old 0 (encode_table (table_for (length v.old) clients files.entry.pairs.now)) }
{
    let mut table = zeros();
    new_table(&mut table, v.len() / Sector::SIZE, clients, files);
    store(v, 0, &table);
}

// The idle record of client k is stored.
fn put_record(v: &mut [u8], k: usize)
    requires { (256 * k + 256 ≤ length v.old) × (k ≤ 65536) }
    ensures { v.new ≡ store_at v.old k (encode_record idle_record) }
{
    let mut buf = zeros();
    empty_record(&mut buf, State::IDLE);
    store(v, k, &buf);
}

// The records of all clients, in sectors 1 to `clients`.
fn put_records(v: &mut [u8], clients: usize)
    requires { (256 * clients + 256 ≤ length v.old) × (clients ≤ 65536) }
    ensures puts { Puts 256 (repeated clients (encode_record idle_record)) v.old v.new }
    ensures v_len_unchanged { length v.new ≡ length v.old }
{
    for k in 1..=clients {
        put_record(v, k);
    }
}

// The header of a new file is stored in sector h.
fn put_header(v: &mut [u8], h: usize, x: File)
    requires { (256 * h + 256 ≤ length v.old) × (h ≤ 65536) × (x.pages ≤ items_room) × (x.pages ≤ x.slots) }
    ensures { v.new ≡ store_at v.old h (encode_header x (new_header x)) }
{
    let mut buf = zeros();
    new_header(&mut buf, x);
    store(v, h, &buf);
}

// The headers of all files, the first one's in sector `first`. Their slots are zeros already.
#[tactic(auto, using(crate::proofs::LayoutLaws::file_pages, crate::proofs::LayoutLaws::file_slots))]
fn put_files(v: &mut [u8], first: usize, files: Files<'_>)
    requires { (256 * sector_after first (files_left files) ≤ length v.old) × (length v.old ≤ 256 * sector_limit)
        × (every file_fits (files_left files) ≡ true) }
    ensures { Puts (256 * first) (new_files (files_left files.entry)) v.old v.new }
{
    let mut h = first;
    for x in files {
        put_header(v, h, x);
        h += x.sectors();
    }
}

// The array becomes the new volume.
#[tactic(auto, using(crate::proofs::FormatLaws::fits_room))]
pub fn lay_out(v: &mut [u8], clients: u8, files: Files<'_>)
    requires { Fits (length v.old) clients files.pairs.now }
    ensures { v.new ≡ new_volume (table_for (length v.old) clients files.entry.pairs.now) }
{
    v.fill(0);
    put_table(v, clients, files);
    let clients = usize::from(clients);
    put_records(v, clients);
    put_files(v, clients + 1, files);
}
