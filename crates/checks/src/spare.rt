// The tests of the question how many slots a file has left.
#![tactic(auto, unfolding(lists::specs::Lists::first))]

ghost use Rattle.std.specs.Prelude.{◌≡◌, IfOk};
ghost use Rattle.lists.specs.Lists.{first};
ghost use Rattle.rules.specs.Spare.{spare_tests};
ghost use Rattle.checks.specs.Verdicts.{number_of};

use interface::Refusal;
use soundness::tabled_volume;
use volume::VolumeFile;

// Test 1 for the array's length and sector 0, then 6, then 1 for the header's mark. Ruled out: the whole volume tested
// (`rules/must-fail/spare_tests_the_volume`); 1 for a file that there isn't (`must-fail/no_file_not_sound`); another file handed on
// (`must-fail/file_1_counted`).
pub fn check_spare(v: &[u8], f: u8) -> Result<VolumeFile<'_>, Refusal>
    ensures tested { number_of result ≡ first (spare_tests v.now f) }
    ensures same { IfOk result (λ x. (x.number ≡ f) × (x.volume.bytes.now ≡ v.now)) }
{
    let w = tabled_volume(v).ok_or(Refusal::NotSound)?;
    let x = w.find_file(f).ok_or(Refusal::NoFile)?;
    if !sector::has_header_mark(x.header()) {
        return Err(Refusal::NotSound);
    }
    Ok(x)
}
