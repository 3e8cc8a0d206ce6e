//! What callers show before they call `settle`, and what its refusals name.

ghost use Rattle.ps_bland.specs.DuePlaces.{DuePlacesAreOfTheTable};
ghost use Rattle.ps_bland.specs.Ready.{PosedTablesAreReady, ValuesStay, FeasibilityStays};

/// A table without values below 0 is ready for a phase where the costs are those of the phase: for
/// phase one 1 on artificials and 0 on all else; for the least value of the query 0 on homes and 0
/// or 1 on worlds; for the greatest 0 on homes and 0 or -1 on worlds, where row 0 of the columns
/// is 0 or 1 on worlds, 1 where the cost is -1, and never below 0 on homes. For both sides each
/// basic artificial has value 0. A world that is added makes no value fall below 0 and no basic
/// artificial's value other than 0.
pub fn ready_tables()
    ensures posed { PosedTablesAreReady }
    ensures values { ValuesStay }
    ensures feasible { FeasibilityStays }
{}

/// The places that are due at a table are told by its basis, its entries and the costs.
pub fn due_places()
    ensures due { DuePlacesAreOfTheTable }
{}
