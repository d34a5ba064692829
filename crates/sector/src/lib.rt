// The bytes of one sector: its size, its marks and its limits; readers of control sectors, the one store, and the edits
// of a working sector.
#![tactic(auto)]

mod build;
mod fresh;
pub mod layout;
mod read;
mod recognize;
mod walk;
mod write;

pub use build::{append_entry, redo_map, set_holder, set_map_slot, set_state, zeros};
pub use fresh::{empty_record, new_header, new_table};
pub use layout::{Entries, Entry, File, Files, Limits, Sector, State};
pub use read::{
    file, file_header, header_holder, header_spare, map, map_slot, part, record_count,
    record_state, table_clients, table_files, table_sectors,
};
pub use recognize::{has_header_mark, has_table_frame, is_header, is_record};
pub use write::store;
