//! Facts of a history: what holds between its tables at two places.
#![tactic(auto)]

ghost use Rattle.doll_past.specs.Facts.{RecordsLiveOn, TablesAreAlong};

/// Of the tables at two places of a history the later one is later: moments never fall, a record with the same moment is the same, with the same children
/// where these touch it, and an id is given once.
pub fn tables_are_along()
    ensures { TablesAreAlong }
{}

/// A record that lives in an earlier and in a later table lives in each between.
pub fn records_live_on()
    ensures { RecordsLiveOn }
{}
