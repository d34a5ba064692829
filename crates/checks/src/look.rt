// The tests of look.
#![tactic(auto, unfolding(lists::specs::Lists::first))]

ghost use Rattle.std.specs.Prelude.{◌≡◌, IfOk};
ghost use Rattle.lists.specs.Lists.{first};
ghost use Rattle.volume.specs.Volumes.{view};
ghost use Rattle.volume.specs.Sound.{sound};
ghost use Rattle.rules.specs.Refusals.{look_tests};
ghost use Rattle.checks.specs.Verdicts.{number_of};

use crate::page::check_page;
use interface::Refusal;
use soundness::sound_volume;
use volume::SoundVolume;

// Tests 1, 6 and 9: the volume is sound, file f exists, and it has page p. Ruled out: a refusal because a client holds the file
// (`rules/must-fail/look_blocked_by_client`); another number than the table's (`must-fail/look_at_no_file`).
pub fn check_look(v: &[u8], f: u8, p: u8) -> Result<SoundVolume<'_>, Refusal>
    ensures tested { number_of result ≡ first (look_tests (sound v.now) (view v.now) f p) }
    ensures same { IfOk result (λ w. w.bytes.now ≡ v.now) }
{
    let w = sound_volume(v).ok_or(Refusal::NotSound)?;
    let x = w.formed().tabled().find_file(f).ok_or(Refusal::NoFile)?;
    check_page(x, p)?;
    Ok(w)
}
