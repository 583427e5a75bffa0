//! The commands.

ghost use Rattle.std.specs.Prelude.{◌≡◌, ◌++◌, ◌∷◌, [], IfOk, OnOk};
ghost use Rattle.std.specs.List.{flat_map};
ghost use Rattle.net_laboratory.specs.declared.command.Command.TheVariants.{Settle};
ghost use Rattle.net_laboratory.specs.Limits.{default_rounds};
ghost use Rattle.net_grid.specs.Grid.{grid_prefix, advertises, advertised_at};

use crate::declared::node_name;
use crate::place::Place;
use net_laboratory::{
    Command, DEFAULT_DISTANCE, DEFAULT_PATH, DEFAULT_ROUNDS, DEFAULT_SOURCE, Show,
};
use or_base::{NoMemory, Prefix, PrefixEntry, Seq};
use std::alloc::Global;

/// 10.<row>.<column>.0/24, where that is a prefix.
#[tactic(auto, unfolding(crate::specs::Grid::grid_prefix))]
fn grid_prefix(place: Place) -> Option<Prefix>
    ensures { result ≡ grid_prefix place }
{
    let row = u128::from(place.row);
    let column = u128::from(place.column);
    Prefix::new(false, ((10 * 256 + row) * 256 + column) * 256, 24)
}

/// The node at the place advertises the prefix, with the defaults of the language.
fn advertises(alloc: Global, place: Place, prefix: Prefix) -> Result<Command, NoMemory>
    ensures { IfOk result (λ command. command ≡ advertises place prefix) }
{
    let node = node_name(alloc, place)?;
    let entry = PrefixEntry {
        prefix,
        path: DEFAULT_PATH,
        source: DEFAULT_SOURCE,
        distance: DEFAULT_DISTANCE,
    };
    Ok(Command::Advertise { node, entry })
}

/// Appends what the node at the place advertises.
fn add_advertised(commands: &mut Vec<Command>, alloc: Global, place: Place) -> Result<(), NoMemory>
    ensures { OnOk result (commands.new.items ≡ commands.old.items ++ advertised_at place) }
{
    if let Some(prefix) = grid_prefix(place) {
        commands.push(advertises(alloc, place, prefix)?)?;
    }
    Ok(())
}

/// Each node of the places advertises its prefix; then a settle shows this.
pub(crate) fn commands_of(
    alloc: Global,
    places: &[Place],
    show: Show,
) -> Result<Seq<Command>, NoMemory>
    ensures { IfOk result (λ commands. commands ≡ flat_map advertised_at places.now ++ Settle default_rounds show ∷ []) }
{
    let mut commands = Vec::new(alloc);
    for place in places {
        add_advertised(&mut commands, alloc, *place)?;
    }
    let rounds = DEFAULT_ROUNDS;
    commands.push(Command::Settle { rounds, show })?;
    Ok(Seq::from_vec(commands))
}
