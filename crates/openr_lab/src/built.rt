ghost use Rattle.std.specs.Prelude.{◌≡◌};
ghost use Rattle.openr_lab.specs.Built.{is_mode_built, is_built};

use lab_words::{Mode, Words};
use net_laboratory::Scenario;

/// The program has the mode.
pub fn is_mode_built(mode: Mode) -> bool
    ensures { result ≡ is_mode_built mode }
{
    matches!(mode, Mode::Replay | Mode::Gen)
}

/// The program runs the scenario in the mode that was asked for. It takes no memory.
pub fn built(words: &Words, scenario: &Scenario) -> bool
    ensures { result ≡ is_built words.now scenario.now }
{
    let _any = scenario;
    is_mode_built(words.mode)
}
