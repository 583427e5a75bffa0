//! Grids: laboratories of a size, which are the same at each call.
//!
//! A grid has as many rows of nodes as it has columns. Each node has a link to the next of its row and one to the next
//! of its column, where there are such, and advertises a prefix of its own (`specs/Grid.antt`). One settle ends it.
//!
//! The files: `place` (the places of nodes), `declared` (nodes and links), `commands`, `laws` (what holds of each
//! grid).
#![tactic(auto)]

ghost use Rattle.std.specs.Prelude.{◌≡◌, ◌≤◌, IfOk};
ghost use Rattle.net_grid.specs.Grid.{least_grid_size, most_grid_size, is_grid_size, grid_scenario};

mod commands;
mod declared;
mod laws;
mod place;

use crate::commands::commands_of;
use crate::declared::{links_of, nodes_of};
pub use crate::laws::grids_are_of_their_size;
use crate::laws::grids_are_sound;
use crate::place::places;
use net_laboratory::{Kind, Scenario, Show};
use or_base::NoMemory;
use std::alloc::Global;

/// How many rows a grid has at least, and columns.
pub const LEAST_GRID_SIZE: u32 = 2;

/// How many it has at most.
pub const MOST_GRID_SIZE: u32 = 8;

/// There is a grid of this size.
pub fn is_grid_size(size: u32) -> bool
    ensures { result ≡ is_grid_size size }
{
    LEAST_GRID_SIZE <= size && size <= MOST_GRID_SIZE
}

/// The grid with so many rows and columns, from [`LEAST_GRID_SIZE`] to [`MOST_GRID_SIZE`], whose settle shows this.
#[tactic(auto, unfolding(crate::specs::Grid::grid_scenario))]
pub fn grid(alloc: Global, size: u32, show: Show) -> Result<Scenario, NoMemory>
    requires low { least_grid_size ≤ size }
    requires high { size ≤ most_grid_size }
    ensures { IfOk result (λ scenario. scenario ≡ grid_scenario size show) }
{
    grids_are_sound(size, show);
    let places = places(alloc, size)?;
    let nodes = nodes_of(alloc, &places)?;
    let links = links_of(alloc, size, &places)?;
    let commands = commands_of(alloc, &places, show)?;
    Ok(Scenario::new(Kind::Full, None, nodes, links, commands, None))
}
