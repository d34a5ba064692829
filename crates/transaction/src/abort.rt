// The stores of abort.
ghost use Rattle.std.specs.Prelude.{◌≡◌, Ok};
ghost use Rattle.interface.specs.declared.Session.{Session};
ghost use Rattle.volume.specs.Places.{IsClient};
ghost use Rattle.volume.specs.Volumes.{view};
ghost use Rattle.volume.specs.WellFormed.{WellFormed};
ghost use Rattle.rules.specs.Plans.{abort, plan};
ghost use Rattle.stores.specs.Runs.{new_run, UpdatesMade};

use stores::{Crashed, Run};

// The stores of abort for client k, whose record is open: recovery undoes it.
pub fn abort_stores(v: &mut [u8], k: u8, budget: u8) -> Result<Run, Crashed>
    requires { WellFormed v.old × IsClient (view v.old).table k × (((view v.old).records k).state ≡ 1) }
    ensures { (s : Session)
        → UpdatesMade v.old (Ok (new_run budget)) (plan (view v.old) s (abort k)) v.new result }
{
    let start = Run::new(budget);
    recovery::recover(v, k, start)
}
