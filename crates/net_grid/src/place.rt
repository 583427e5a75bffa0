//! The places of nodes.

ghost use Rattle.std.specs.Prelude.{◌≡◌, ◌++◌, IfOk, OnOk};
ghost use Rattle.net_grid.specs.Grid.{places, row_of_places};

use or_base::NoMemory;
use std::alloc::Global;

/// A node's place in the grid: its row and its column, from 0.
#[derive(Clone, Copy, Debug, PartialEq, Eq)]
pub(crate) struct Place {
    pub row: u32,
    pub column: u32,
}

/// Appends the places of a row.
#[tactic(auto, using(crate::proofs::Places::one_column_more))]
fn add_row(places: &mut Vec<Place>, size: u32, row: u32) -> Result<(), NoMemory>
    ensures { OnOk result (places.new.items ≡ places.old.items ++ row_of_places size row) }
{
    for column in 0..size {
        places.push(Place { row, column })?;
    }
    Ok(())
}

/// The places of the grid of this size, row by row.
#[tactic(auto, using(crate::proofs::Places::one_row_more))]
pub(crate) fn places(alloc: Global, size: u32) -> Result<Vec<Place>, NoMemory>
    ensures { IfOk result (λ all. all.items ≡ places size) }
{
    let mut all = Vec::new(alloc);
    for row in 0..size {
        add_row(&mut all, size, row)?;
    }
    Ok(all)
}
