// The volume as a whole: what is where, and what it holds.
#![tactic(auto)]

mod fits;
mod read;
mod write;

pub use fits::file_fits;
pub use read::{FormedVolume, SoundVolume, TabledVolume, VolumeClient, VolumeFile};
pub use write::{store_header, store_record, store_slot};
