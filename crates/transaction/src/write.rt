// The stores of write.
ghost use Rattle.std.specs.Prelude.{◌≡◌, [], ◌∷◌, ℕ, ◌<◌, length, Ok};
ghost use Rattle.std.proofs.Math.Option.{some};
ghost use Rattle.interface.specs.declared.Session.{Session};
ghost use Rattle.sector.specs.Layout.{entry_limit};
ghost use Rattle.sector.specs.Contents.{Entry, appended};
ghost use Rattle.volume.specs.Places.{IsClient, IsFile, file_at};
ghost use Rattle.volume.specs.Views.{set_record};
ghost use Rattle.volume.specs.Volumes.{view};
ghost use Rattle.volume.specs.WellFormed.{WellFormed};
ghost use Rattle.rules.specs.Plans.{write, entry_for, plan};
ghost use Rattle.stores.specs.Runs.{new_run, UpdatesMade};
ghost use Rattle.transaction.specs.Tested.{NewPage};

use sector::Entry;
use stores::{Crashed, Run};
use volume::FormedVolume;

// Client k's record is put with this entry appended.
fn put_entry(v: &mut [u8], k: u8, entry: Entry, run: Run) -> Result<Run, Crashed>
    requires { WellFormed v.old × IsClient (view v.old).table k × (length ((view v.old).records k).entries < entry_limit) }
    ensures { UpdatesMade v.old (Ok run) (set_record k (appended ((view v.old).records k) entry) ∷ []) v.new result }
{
    let mut buf = *FormedVolume { bytes: v }.client(k).record();
    sector::append_entry(&mut buf, entry);
    stores::put_record(v, k, &buf, run)
}

// The stores of write for a page of file f that has an entry, which gives this slot: the page alone.
pub fn write_again(
    v: &mut [u8],
    f: u8,
    slot: u8,
    src: &[u8; 256],
    budget: u8,
) -> Result<Run, Crashed>
    requires { WellFormed v.old × IsFile (view v.old).table f × (slot < (file_at (view v.old).table f).slots) }
    ensures { (s : Session) (k p : ℕ) (e : Entry) → entry_for (view v.old) k f p ≡ some e → e.slot ≡ slot
        → UpdatesMade v.old (Ok (new_run budget)) (plan (view v.old) s (write k f p src.now)) v.new result }
{
    let start = Run::new(budget);
    stores::put_slot(v, f, slot, src, start)
}

// The stores of write for a page that has no entry yet, in the slot chosen for it: the page first, then the record with the
// entry appended.
// File, page and slot come as three, as the call has them.
pub fn write_new(
    v: &mut [u8],
    k: u8,
    f: u8,
    p: u8,
    slot: u8,
    src: &[u8; 256],
    budget: u8,
) -> Result<Run, Crashed>
    requires { WellFormed v.old × NewPage (view v.old) k f p slot }
    ensures { (s : Session)
        → UpdatesMade v.old (Ok (new_run budget)) (plan (view v.old) s (write k f p src.now)) v.new result }
{
    let start = Run::new(budget);
    let entry = Entry {
        file: f,
        page: p,
        slot,
    };
    let run = stores::put_slot(v, f, slot, src, start)?;
    put_entry(v, k, entry, run)
}
