// Stores under a budget. A run of stores is handed from function to function: each puts its stores and hands the run on, or
// answers that the supply failed, so that nothing after it is stored.
#![tactic(auto)]

ghost use Rattle.std.specs.Prelude.{◌≡◌, [], ◌∷◌, ◌<◌, Ok};
ghost use Rattle.sector.specs.Contents.{Record, Header};
ghost use Rattle.sector.specs.Encoding.{encode_record, encode_header};
ghost use Rattle.volume.specs.Places.{IsClient, IsFile, file_at};
ghost use Rattle.volume.specs.Views.{set_record, set_header, set_slot};
ghost use Rattle.volume.specs.Volumes.{view};
ghost use Rattle.volume.specs.WellFormed.{WellFormed};
ghost use Rattle.stores.specs.Runs.{new_run, counted, UpdatesMade};

use std::error::Error;
use std::fmt;

// A run of stores: how many it may make, and how many it made.
#[derive(Clone, Copy, Debug, PartialEq, Eq)]
pub struct Run {
    pub budget: u8,
    pub made: u8,
}

// The supply failed: a run was to make one more store than its budget, and had made so many.
#[derive(Clone, Copy, Debug, PartialEq, Eq)]
pub struct Crashed {
    pub made: u8,
}

impl fmt::Display for Crashed {
    fn fmt<W: fmt::Write>(&self, f: &mut fmt::Formatter<W>) -> fmt::Result {
        write!(f, "cut {}", self.made)
    }
}

impl Error for Crashed {}

impl Run {
    // A run that has made no store yet.
    pub fn new(budget: u8) -> Self
        ensures { result ≡ new_run budget }
    {
        Run { budget, made: 0 }
    }

    // The run with one store more, or a crash if its budget is used up. Ruled out: a store counted that isn't made.
    fn count(self) -> Result<Run, Crashed>
        ensures { result ≡ counted self }
    {
        if self.made < self.budget {
            return Ok(Run {
                budget: self.budget,
                made: self.made + 1,
            });
        }
        Err(Crashed { made: self.made })
    }
}

// What stores is lent the bytes, and asks for `WellFormed` in a clause. A type that lends a well-formed volume for storing was tried: each
// put would have to ask that its bytes fit, which is more than now, and each function to say that the reference stays the same. So the
// client and the file are numbers too, with a clause that they exist: they are of the same volume as it is stored to.
// Three puts, and not one over a closure that stores, which is no plainer: its contract would be the three updates again. One put of a
// place was tried too: it is proved, and no plainer. Its contract is about every update of that place with these bytes, where each of the
// three names its update; it takes a second type of places, as the definition's has the table too, and laws that tell the updates apart.

// Client k's record becomes the one that src encodes.
pub fn put_record(v: &mut [u8], k: u8, src: &[u8; 256], run: Run) -> Result<Run, Crashed>
    requires { WellFormed v.old × IsClient (view v.old).table k }
    ensures { (r : Record) → src.now ≡ encode_record r
        → UpdatesMade v.old (Ok run) (set_record k r ∷ []) v.new result }
{
    let next = run.count()?;
    volume::store_record(v, k, src);
    Ok(next)
}

// File f's header becomes the one that src encodes.
pub fn put_header(v: &mut [u8], f: u8, src: &[u8; 256], run: Run) -> Result<Run, Crashed>
    requires { WellFormed v.old × IsFile (view v.old).table f }
    ensures { (h : Header) → src.now ≡ encode_header (file_at (view v.old).table f) h
        → UpdatesMade v.old (Ok run) (set_header f h ∷ []) v.new result }
{
    let next = run.count()?;
    volume::store_header(v, f, src);
    Ok(next)
}

// Slot r of file f becomes src.
pub fn put_slot(v: &mut [u8], f: u8, r: u8, src: &[u8; 256], run: Run) -> Result<Run, Crashed>
    requires { WellFormed v.old × IsFile (view v.old).table f × (r < (file_at (view v.old).table f).slots) }
    ensures { UpdatesMade v.old (Ok run) (set_slot f r src.now ∷ []) v.new result }
{
    let run = run.count()?;
    volume::store_slot(v, f, r, src);
    Ok(run)
}
