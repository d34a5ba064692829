// The stores of a volume that was found sound, by their meaning. Each is the one store of the sector layer.
// `WellFormed v.old` stays a clause, and the stores stay three: `stores` says why of both.
ghost use Rattle.std.specs.Prelude.{◌≡◌, ◌<◌, length};
ghost use Rattle.sector.specs.Contents.{File, Table, Record, Header};
ghost use Rattle.sector.specs.Encoding.{encode_record, encode_header};
ghost use Rattle.volume.specs.Places.{IsClient, IsFile, file_at};
ghost use Rattle.volume.specs.Views.{View, set_record, set_header, set_slot};
ghost use Rattle.volume.specs.Volumes.{view};
ghost use Rattle.volume.specs.Stores.{updated};
ghost use Rattle.volume.specs.WellFormed.{WellFormed};

use crate::read::TabledVolume;

// Client k's record becomes the one that src encodes.
pub fn store_record(v: &mut [u8], k: u8, src: &[u8; 256])
    requires { WellFormed v.old × IsClient (view v.old).table k }
    ensures { (r : Record) → src.now ≡ encode_record r → v.new ≡ updated (view v.old).table v.old (set_record k r) }
{
    sector::store(v, usize::from(k), src);
}

// File f's header becomes the one that src encodes.
pub fn store_header(v: &mut [u8], f: u8, src: &[u8; 256])
    requires { WellFormed v.old × IsFile (view v.old).table f }
    ensures { (h : Header) → src.now ≡ encode_header (file_at (view v.old).table f) h → v.new ≡ updated (view v.old).table v.old (set_header f h) }
{
    let s = TabledVolume { bytes: v }.file(f).header_sector();
    sector::store(v, s, src);
}

// Slot r of file f becomes src.
pub fn store_slot(v: &mut [u8], f: u8, r: u8, src: &[u8; 256])
    requires { WellFormed v.old × IsFile (view v.old).table f × (r < (file_at (view v.old).table f).slots) }
    ensures { v.new ≡ updated (view v.old).table v.old (set_slot f r src.now) }
{
    let s = TabledVolume { bytes: v }.file(f).header_sector() + 1 + usize::from(r);
    sector::store(v, s, src);
}
