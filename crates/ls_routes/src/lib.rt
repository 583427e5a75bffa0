//! Tables of routes, and what changes between two of them.
//!
//! A table has at most one route to each prefix, and is looked up by exactly that prefix: no longer or shorter one is looked
//! for. A change from one table to another is the prefixes whose routes go, and then the routes that are new or changed, both
//! in the order of prefixes (`delta_between`, `specs/Routes.antt`). `RouteDb` gives exactly that, and applies it.
//!
//! Laws of tables (`specs/Laws.antt`): look-ups tell all of a table, a change leads from one table to the other, no change is
//! the same table, and where tables differ only at some prefixes the change at these is all. Each is a function that does
//! nothing.
//!
//! The file: `table`.
#![tactic(auto)]

ghost use Rattle.ls_routes.specs.Laws.{TablesAreTested, SameRoutesAreEqual, EqualLookupsAreOneTable, DeltasLeadOn, SameTableHasNoDelta, NoDeltaIsSameTable, DeltasAreThese, PlacesGiveTheDelta, RoutesAtAreThese};

mod table;

pub use table::RouteDb;

/// The test of tables is true of exactly the tables. It does nothing.
pub fn tables_are_tested()
    ensures { TablesAreTested }
{}

/// Two routes to one prefix that are the same are equal. It does nothing.
pub fn same_routes_are_equal()
    ensures { SameRoutesAreEqual }
{}

/// Two tables with the same route to each prefix are one. It does nothing.
pub fn equal_lookups_are_one_table()
    ensures { EqualLookupsAreOneTable }
{}

/// The change from one table to another, applied to the one, gives the other. It does nothing.
pub fn deltas_lead_on()
    ensures { DeltasLeadOn }
{}

/// From a table to itself nothing changes. It does nothing.
pub fn same_table_has_no_delta()
    ensures { SameTableHasNoDelta }
{}

/// Tables between which nothing changes are one. It does nothing.
pub fn no_delta_is_same_table()
    ensures { NoDeltaIsSameTable }
{}

/// The change from one table to another has exactly the prefixes whose routes go and the routes that are new or changed, both
/// in order, and no other delta has. It does nothing.
pub fn deltas_are_these()
    ensures { DeltasAreThese }
{}

/// Where two tables differ at no prefix but some places, the change at these places is all that changes. It does nothing.
pub fn places_give_the_delta()
    ensures { PlacesGiveTheDelta }
{}

/// A table in which some prefixes have been given chosen routes, or none, is the table with these routes there and the old
/// ones elsewhere. It does nothing.
pub fn routes_at_are_these()
    ensures { RoutesAtAreThese }
{}
