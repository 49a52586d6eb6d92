// The classes that a job wants.
ghost use Rattle.std.specs.Prelude.{◌≡◌, ◌≤◌};
ghost use Rattle.job.specs.Wanted.{is_wanted};

use words::checked::value;

// Whether a class is among them.
#[tactic(auto, unfolding(crate::specs::Wanted::is_wanted))]
pub fn is_wanted(classes: u32, class: u32) -> bool
    requires { (1 ≤ class) × (class ≤ 4) }
    ensures { result ≡ is_wanted classes class }
{
    value(classes, class - 1) == 1
}
