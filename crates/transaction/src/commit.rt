// The stores of commit.
ghost use Rattle.std.specs.Prelude.{[], ◌∷◌, Ok};
ghost use Rattle.interface.specs.declared.Session.{Session};
ghost use Rattle.sector.specs.Contents.{decided_record};
ghost use Rattle.volume.specs.Places.{IsClient};
ghost use Rattle.volume.specs.Views.{set_record};
ghost use Rattle.volume.specs.Volumes.{view};
ghost use Rattle.volume.specs.WellFormed.{WellFormed};
ghost use Rattle.rules.specs.Plans.{commit, plan};
ghost use Rattle.stores.specs.Runs.{new_run, UpdatesMade};

use sector::State;
use stores::{Crashed, Run};
use volume::FormedVolume;

// Client k's record is put decided.
fn decide(v: &mut [u8], k: u8, run: Run) -> Result<Run, Crashed>
    requires { WellFormed v.old × IsClient (view v.old).table k }
    ensures { UpdatesMade v.old (Ok run) (set_record k (decided_record ((view v.old).records k)) ∷ []) v.new result }
{
    let mut buf = *FormedVolume { bytes: v }.client(k).record();
    sector::set_state(&mut buf, State::DECIDED);
    stores::put_record(v, k, &buf, run)
}

// The stores of commit for client k: the record is decided, then recovery redoes it.
pub fn commit_stores(v: &mut [u8], k: u8, budget: u8) -> Result<Run, Crashed>
    requires { WellFormed v.old × IsClient (view v.old).table k }
    ensures { (s : Session)
        → UpdatesMade v.old (Ok (new_run budget)) (plan (view v.old) s (commit k)) v.new result }
{
    let start = Run::new(budget);
    let run = decide(v, k, start)?;
    recovery::recover(v, k, run)
}
