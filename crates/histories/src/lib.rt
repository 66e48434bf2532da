// Histories: any calls one after the other on the graph, and the order in which their events come.
#![tactic(auto)]

ghost use Rattle.histories.specs.Day.{DayInOrder};
ghost use Rattle.histories.specs.Order.{EveryCallContinues};

// Each contract is a theorem.

// Every history is orderly, and the clock never falls.
pub fn every_history_is_orderly()
    ensures { EveryCallContinues }
{}

// An event that is scheduled later comes first where its time is earlier, and second where the times are equal.
pub fn a_day_is_in_order()
    ensures { DayInOrder }
{}
