//! The laws of places.
ghost use Rattle.ps_table.specs.Laws.{PrintedPlacesAreExact};

/// A place of a printed number is wide exactly where that number is too large.
pub fn printed_places()
    ensures exact { PrintedPlacesAreExact }
{}
