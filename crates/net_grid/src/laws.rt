//! What holds of each grid.

ghost use Rattle.std.specs.Prelude.{◌≡◌, ◌≤◌, ◌*◌, ◌-◌, length, true};
ghost use Rattle.net_laboratory.specs.Sound.{is_sound};
ghost use Rattle.net_grid.specs.Grid.{least_grid_size, most_grid_size, grid_scenario, AdvertisesOneEach};

use net_laboratory::Show;

/// A grid keeps all limits of scenarios.
#[tactic(auto, using(crate::proofs::Soundness::grids_are_sound))]
pub(crate) fn grids_are_sound(size: u32, show: Show)
    requires low { least_grid_size ≤ size }
    requires high { size ≤ most_grid_size }
    ensures { is_sound (grid_scenario size show) ≡ true }
{
    let _size = size;
    let _show = show;
}

/// A grid of `size` rows and columns has `size * size` nodes and `2 * size * (size - 1)` links, and each node advertises
/// one prefix.
#[tactic(auto, using(crate::proofs::Sizes::grid_sizes))]
pub fn grids_are_of_their_size(size: u32, show: Show)
    requires low { least_grid_size ≤ size }
    requires high { size ≤ most_grid_size }
    ensures nodes { length (grid_scenario size show).nodes ≡ size * size }
    ensures links { length (grid_scenario size show).links ≡ 2 * size * (size - 1) }
    ensures prefixes { AdvertisesOneEach (grid_scenario size show) }
{
    let _size = size;
    let _show = show;
}
