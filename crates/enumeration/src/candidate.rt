// A candidate made in an array: the layout of the small shape, then the record and the header of its number. Numbers are taken
// apart by division, as the lists of choices are put together: the last part varies fastest.
ghost use Rattle.std.specs.Prelude.{◌≡◌, [], ◌<◌, length, get_or};
ghost use Rattle.sector.specs.Layout.{entry_limit};
ghost use Rattle.sector.specs.Contents.{Record, idle_record, appended};
ghost use Rattle.sector.specs.Encoding.{encode_record, encode_header};
ghost use Rattle.sector.specs.Decoding.{count_in};
ghost use Rattle.volume.specs.Views.{no_header, set_record, set_header};
ghost use Rattle.volume.specs.Stores.{updated};
ghost use Rattle.volume.specs.WellFormed.{no_entry};
ghost use Rattle.enumeration.specs.Choices.{small_file, small_table, entry_choices, entry_lists, record_choices, header_choices};
ghost use Rattle.enumeration.specs.Small.{candidates};

use crate::Small;
use crate::choices::{Choices, entry_at, map_at};
use format::format;
use sector::{append_entry, empty_record, new_header, set_holder, set_map_slot, store, zeros};

// Entry e is appended to the record.
fn append_choice(buf: &mut [u8; 256], e: usize)
    requires { (count_in buf.old < entry_limit) × (e < length entry_choices) }
    ensures buf_after { (r : Record) → buf.old ≡ encode_record r → buf.new ≡ encode_record (appended r (get_or entry_choices e no_entry)) }
{
    append_entry(buf, entry_at(e));
}

// The record with this state and the entries of this list, built in the array lent, as a header is: one handed back would be copied.
// A list that isn't empty is an earlier one with one entry more: after the empty list there is, for each list in order, that list
// with each entry.
#[tactic(auto, using(crate::proofs::ChoiceLaws::entries_count, crate::proofs::ChoiceLaws::lists_count, crate::proofs::ChoiceLaws::list_first, crate::proofs::ChoiceLaws::list_longer, crate::proofs::ChoiceLaws::list_room))]
fn build_record(buf: &mut [u8; 256], state: u8, list: usize)
    requires { list < length entry_lists }
    ensures { buf.new ≡ encode_record (record { state = state; entries = get_or entry_lists list [] }) }
{
    if list == 0 {
        empty_record(buf, state);
        return;
    }
    build_record(buf, state, (list - 1) / Choices::ENTRIES);
    append_choice(buf, (list - 1) % Choices::ENTRIES);
}

// Header b.
#[tactic(auto, using(crate::proofs::ChoiceLaws::maps_count, crate::proofs::ChoiceLaws::headers_count, crate::proofs::ChoiceLaws::header_made))]
fn build_header(buf: &mut [u8; 256], b: usize)
    requires { b < length header_choices }
    ensures { buf.new ≡ encode_header small_file (get_or header_choices b no_header) }
{
    let [first, second] = map_at(b % Choices::MAPS);
    new_header(buf, Small::FILE);
    // A cast: the holder is shown to fit, and `try_from` would only add an `unwrap`.
    set_holder(buf, (b / Choices::MAPS) as u8);
    set_map_slot(buf, 0, first);
    set_map_slot(buf, 1, second);
}

// Record a is stored. It and `put_header` stay two, as `format`'s.
#[tactic(auto, using(crate::proofs::ChoiceLaws::lists_count, crate::proofs::ChoiceLaws::records_count, crate::proofs::ChoiceLaws::record_at))]
fn put_record(v: &mut [u8; Small::LENGTH], a: usize)
    requires { a < length record_choices }
    ensures { v.new ≡ updated small_table v.old (set_record 1 (get_or record_choices a idle_record)) }
{
    // A cast: the state is shown to fit, and `try_from` would only add an `unwrap`.
    let mut buf = zeros();
    build_record(&mut buf, (a / Choices::LISTS) as u8, a % Choices::LISTS);
    store(v, Small::RECORD, &buf);
}

// Header b is stored.
#[tactic(auto, unfolding(volume::specs::Places::sector_after))]
fn put_header(v: &mut [u8; Small::LENGTH], b: usize)
    requires { b < length header_choices }
    ensures { v.new ≡ updated small_table v.old (set_header 1 (get_or header_choices b no_header)) }
{
    let mut buf = zeros();
    build_header(&mut buf, b);
    store(v, Small::HEADER, &buf);
}

// The array becomes candidate i.
#[tactic(auto, using(crate::proofs::ChoiceLaws::records_count, crate::proofs::ChoiceLaws::headers_count, crate::proofs::ChoiceLaws::candidates_count, crate::proofs::MadeLaws::laid_out, crate::proofs::MadeLaws::candidate_made))]
pub fn make_candidate(v: &mut [u8; Small::LENGTH], i: usize)
    requires { i < length candidates }
    ensures { v.new ≡ get_or candidates i [] }
{
    let shape = Small::SHAPE;
    format(v, Small::CLIENTS, &shape).unwrap();
    put_record(v, i / Choices::HEADERS);
    put_header(v, i % Choices::HEADERS);
}
