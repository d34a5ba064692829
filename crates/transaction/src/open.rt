// The stores of open, for writing and for reading.
ghost use Rattle.std.specs.Prelude.{◌≡◌, true, false, [], ◌∷◌, Ok};
ghost use Rattle.interface.specs.declared.Session.{Session};
ghost use Rattle.volume.specs.Places.{IsFile};
ghost use Rattle.volume.specs.Views.{set_header};
ghost use Rattle.volume.specs.Lawful.{header_fits};
ghost use Rattle.volume.specs.Volumes.{view};
ghost use Rattle.volume.specs.WellFormed.{WellFormed};
ghost use Rattle.rules.specs.Sessions.{is_reading};
ghost use Rattle.rules.specs.Plans.{open_file, open_read, plan};
ghost use Rattle.rules.specs.Refusals.{held_by_other};
ghost use Rattle.stores.specs.Runs.{new_run, UpdatesMade};

use stores::{Crashed, Run};
use volume::TabledVolume;

// File f's header is put with holder k and the map that it has.
fn claim(v: &mut [u8], k: u8, f: u8, run: Run) -> Result<Run, Crashed>
    requires { WellFormed v.old × IsFile (view v.old).table f }
    ensures { UpdatesMade v.old (Ok run) (set_header f (record { holder = k; map = ((view v.old).headers f).map }) ∷ [])
        v.new result }
{
    let mut buf = *TabledVolume { bytes: v }.file(f).header();
    sector::set_holder(&mut buf, k);
    stores::put_header(v, f, &buf, run)
}

// The stores of open for client k and file f, in any session in which no other active client holds f: none if k holds it.
// Another holder, which is orphaned then, is recovered; last, the header has holder k and the map after that recovery.
pub fn open_stores(v: &mut [u8], k: u8, f: u8, budget: u8) -> Result<Run, Crashed>
    requires { WellFormed v.old × IsFile (view v.old).table f
        × (header_fits (view v.old).records (view v.old).table f ((view v.old).headers f) ≡ true) }
    ensures { (s : Session) → held_by_other (view v.old) s k f ≡ false
        → UpdatesMade v.old (Ok (new_run budget)) (plan (view v.old) s (open_file k f)) v.new result }
{
    let start = Run::new(budget);
    let holder = TabledVolume { bytes: v }.file(f).holder();
    if holder == k {
        return Ok(start);
    }
    if holder == 0 {
        return claim(v, k, f, start);
    }
    let run = recovery::recover(v, holder, start)?;
    claim(v, k, f, run)
}

// The stores of open for reading: none if k or nobody holds f. Another holder, which is orphaned where the call isn't refused,
// is recovered. So it is for every session in which no other active client holds f, and in which k holds f for reading only
// if nobody holds it. Ruled out: no recovery (`rules/must-fail/read_without_recovery`), or another client's
// (`must-fail/open_read_recovers_itself`); k named in the header.
pub fn open_read_stores(v: &mut [u8], k: u8, f: u8, budget: u8) -> Result<Run, Crashed>
    requires { WellFormed v.old × IsFile (view v.old).table f
        × (header_fits (view v.old).records (view v.old).table f ((view v.old).headers f) ≡ true) }
    ensures { (s : Session) → held_by_other (view v.old) s k f ≡ false
        → (is_reading s k f ≡ true → ((view v.old).headers f).holder ≡ 0)
        → UpdatesMade v.old (Ok (new_run budget)) (plan (view v.old) s (open_read k f)) v.new result }
{
    let start = Run::new(budget);
    let holder = TabledVolume { bytes: v }.file(f).holder();
    if holder == k {
        return Ok(start);
    }
    if holder == 0 {
        return Ok(start);
    }
    recovery::recover(v, holder, start)
}
