ghost use Rattle.std.specs.Prelude.{IsTrue};
ghost use Rattle.net_laboratory.specs.Sound.{is_sound};

use net_laboratory::Scenario;

/// What the type of a scenario keeps.
pub fn scenario_is_sound(scenario: &Scenario)
    ensures { IsTrue (is_sound scenario.now) }
{
    let _kind = scenario.kind;
}
