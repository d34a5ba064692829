// The stores of begin.
ghost use Rattle.std.specs.Prelude.{◌≡◌, false, Ok};
ghost use Rattle.interface.specs.declared.Session.{Session};
ghost use Rattle.volume.specs.Places.{IsClient};
ghost use Rattle.volume.specs.Volumes.{view};
ghost use Rattle.volume.specs.WellFormed.{WellFormed};
ghost use Rattle.rules.specs.Sessions.{is_active};
ghost use Rattle.rules.specs.Plans.{begin, plan};
ghost use Rattle.stores.specs.Runs.{new_run, UpdatesMade};

use sector::State;
use stores::{Crashed, Run};

// The stores of begin for client k: what an orphaned transaction left is recovered, then the record is opened.
pub fn begin_stores(v: &mut [u8], k: u8, budget: u8) -> Result<Run, Crashed>
    requires { WellFormed v.old × IsClient (view v.old).table k }
    ensures { (s : Session) → is_active s k ≡ false
        → UpdatesMade v.old (Ok (new_run budget)) (plan (view v.old) s (begin k)) v.new result }
{
    let start = Run::new(budget);
    let run = recovery::recover(v, k, start)?;
    recovery::put_empty_record(v, k, State::OPEN, run)
}
