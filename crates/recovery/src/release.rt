// Recovery by the state of the client's record, and its stores: each file that it holds, rising, and then the record.
ghost use Rattle.std.specs.Prelude.{◌≡◌, [], ◌∷◌, Ok, OnOk};
ghost use Rattle.sector.specs.Encoding.{encode_header};
ghost use Rattle.volume.specs.Places.{IsClient, IsFile, file_at};
ghost use Rattle.volume.specs.Views.{set_record};
ghost use Rattle.volume.specs.Volumes.{view};
ghost use Rattle.volume.specs.WellFormed.{WellFormed};
ghost use Rattle.rules.specs.Recovery.{recovery};
ghost use Rattle.stores.specs.Runs.{UpdatesMade, AllMade};
ghost use Rattle.recovery.specs.Work.{recovery_now, freed, release_of};

use sector::{Sector, State};
use stores::{Crashed, Run};
use volume::{FormedVolume, TabledVolume, VolumeClient};

// What stores is lent the bytes, with `WellFormed` in a clause (`stores` says why); what reads takes a volume that is known to be so.

// The header that recovery of the client leaves for file f, built in the working sector lent: an array handed back would be a second
// one on the stack.
// `redo` is a flag, as in the definition `recovery`: a closure in its place is no plainer, since each contract speaks of it. The file is
// given by its number beside the client: a second value that knows its volume would take a clause that the two volumes are one.
fn free_header(buf: &mut [u8; Sector::SIZE], c: VolumeClient<'_>, redo: bool, f: u8)
    requires { IsFile (view c.volume.bytes.now).table f }
    ensures { buf.new ≡ encode_header (file_at (view c.entry.volume.bytes.now).table f) (freed redo (view c.entry.volume.bytes.now) c.entry.number f) }
{
    *buf = *c.volume.tabled().file(f).header();
    sector::set_holder(buf, 0);
    if redo {
        sector::redo_map(buf, c.entries(), f);
    }
}

// File f, which client k holds, is freed.
// It and `put_empty_record` stay two, as `transaction`'s three.
fn free_file(v: &mut [u8], k: u8, redo: bool, f: u8, run: Run) -> Result<Run, Crashed>
    requires { WellFormed v.old × IsClient (view v.old).table k × IsFile (view v.old).table f × (((view v.old).headers f).holder ≡ k) }
    ensures { UpdatesMade v.old (Ok run) (release_of redo (view v.old) k f) v.new result }
{
    let mut buf = sector::zeros();
    free_header(&mut buf, FormedVolume { bytes: v }.client(k), redo, f);
    stores::put_header(v, f, &buf, run)
}

// Client k's record is put in this state, with no entries.
pub fn put_empty_record(v: &mut [u8], k: u8, state: u8, run: Run) -> Result<Run, Crashed>
    requires { WellFormed v.old × IsClient (view v.old).table k }
    ensures { UpdatesMade v.old (Ok run) (set_record k (record { state = state; entries = [] }) ∷ []) v.new result }
{
    let mut buf = sector::zeros();
    sector::empty_record(&mut buf, state);
    stores::put_record(v, k, &buf, run)
}

// Every file that client k holds is freed, rising; last, its record is idle.
fn release(v: &mut [u8], k: u8, redo: bool, mut run: Run) -> Result<Run, Crashed>
    requires { WellFormed v.old × IsClient (view v.old).table k }
    ensures updates_made { UpdatesMade v.old (Ok run) (recovery redo (view v.old) k) v.new result }
    ensures all_made { OnOk result (AllMade v.old (recovery redo (view v.old) k) v.new) }
{
    let files = TabledVolume { bytes: v }.files();
    for f in 1..=files {
        let x = TabledVolume { bytes: v }.file(f);
        if x.holder() == k {
            run = free_file(v, k, redo, f, run)?;
        }
    }
    put_empty_record(v, k, State::IDLE, run)
}

// Client k is recovered by its record's state: nothing to do if idle, undone if open, redone if decided.
pub fn recover(v: &mut [u8], k: u8, run: Run) -> Result<Run, Crashed>
    requires { WellFormed v.old × IsClient (view v.old).table k }
    ensures updates_made { UpdatesMade v.old (Ok run) (recovery_now (view v.old) k) v.new result }
    ensures all_made { OnOk result (AllMade v.old (recovery_now (view v.old) k) v.new) }
{
    // The state byte itself is matched, and no enum of it: a rule, document 01 names this form.
    let state = FormedVolume { bytes: v }.client(k).state();
    match state {
        State::IDLE => Ok(run),
        State::OPEN => release(v, k, false, run),
        State::DECIDED => release(v, k, true, run),
        // Never taken: no sound volume has another byte there. The soundness test has refused it by 1 before, and `WellFormed` says
        // that the record fits.
        _ => Ok(run),
    }
}
