// Whether an array of bytes is a sound volume: the test that every call makes before anything else.
// It reads the table, the intentions records and the headers, and no slot and no later sector. Each of
// the crates `table_test`, `record_test` and `header_test` tests one kind of control sector: whether its bytes are one,
// which `sector` says, and its numbers.
#![tactic(auto)]

ghost use Rattle.std.specs.Prelude.{◌≡◌, true, ◌+◌, ◌*◌, ◌≤◌, length, is_some, IfSome};
ghost use Rattle.lists.specs.Lists.{every, from};
ghost use Rattle.sector.specs.Decoding.{clients_in, file_count_in, decode_table};
ghost use Rattle.volume.specs.Sound.{sound, table_sound_in};
ghost use Rattle.record_test.specs.Record.{record_sound_in};
ghost use Rattle.header_test.specs.Header.{header_sound};

use header_test::TestedVolume;
use record_test::record_is_sound;
use sector::{Sector, part, table_clients, table_files, table_sectors};
use table_test::{SoundTable, table_is_sound};
use volume::{SoundVolume, TabledVolume};

// Whether `v`, of any length, is a sound volume. Ruled out: `true` where a byte after the last entry of a record is not
// zero (`sector/must-fail/tail_not_tested`); `false` because of what a slot or a later sector holds.
#[tactic(auto, using(crate::proofs::SoundLaws::table_unsound, crate::proofs::SoundLaws::records_no))]
pub fn is_sound(v: &[u8]) -> bool
    ensures { result ≡ sound v.now }
{
    if !table_is_sound_in(v) {
        return false;
    }
    let table = part(v, 0);
    if !records_are_sound(v, SoundTable { bytes: table }) {
        return false;
    }
    headers_are_sound(&TestedVolume { v, table })
}

// The same, as a volume that is known to be sound. Ruled out: one found where the test fails; nothing found where it holds
// (`must-fail/never_found`).
// It and `tabled_volume` stay two: one function would take the test, the type and the law from one to the other as parameters, for
// two uses, and be no plainer.
pub fn sound_volume(v: &[u8]) -> Option<SoundVolume<'_>>
    ensures found { is_some result ≡ sound v.now }
    ensures same { IfSome result (λ w. w.bytes.now ≡ v.now) }
{
    if is_sound(v) {
        return Some(SoundVolume { bytes: v });
    }
    None
}

// Whether the length of `v` and its sector 0 are those of a sound volume. Ruled out: `true` for an array that is longer than its
// N sectors (`must-fail/longer_than_its_sectors`); `false` because of what another sector holds.
#[tactic(auto, using(crate::proofs::SoundLaws::short_no, crate::proofs::SoundLaws::table_no))]
pub fn table_is_sound_in(v: &[u8]) -> bool
    ensures { result ≡ table_sound_in v.now }
{
    if v.len() < Sector::SIZE {
        return false;
    }
    let table = part(v, 0);
    if !table_is_sound(table) {
        return false;
    }
    v.len() == Sector::SIZE * table_sectors(table)
}

// The same, as a volume whose length and table are known to be sound. Ruled out: nothing found because of what another sector
// holds (`must-fail/found_only_if_sound`).
pub fn tabled_volume(v: &[u8]) -> Option<TabledVolume<'_>>
    ensures found { is_some result ≡ table_sound_in v.now }
    ensures same { IfSome result (λ w. w.bytes.now ≡ v.now) }
{
    if table_is_sound_in(v) {
        return Some(TabledVolume { bytes: v });
    }
    None
}

// Whether the records of all clients are sound.
fn records_are_sound(v: &[u8], table: SoundTable<'_>) -> bool
    requires { 256 * clients_in table.bytes.now + 256 ≤ length v.now }
    ensures { result ≡ every (record_sound_in (decode_table table.entry.bytes.now) v.now) (from 1 (clients_in table.entry.bytes.now)) }
{
    (1..=usize::from(table_clients(table.bytes))).all(|k| record_is_sound(table, part(v, k)))
}

// Whether the headers of all files are sound.
fn headers_are_sound(w: &TestedVolume<'_>) -> bool
    ensures { result ≡ every (header_sound (decode_table w.now.table.now) w.now.v.now) (from 1 (file_count_in w.now.table.now)) }
{
    (1..=table_files(w.table)).all(|f| w.header_is_sound(f))
}
