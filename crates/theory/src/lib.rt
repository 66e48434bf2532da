// The law of the record store: the contract of each function is a theorem.
#![tactic(auto)]

ghost use Rattle.model.specs.Law.{Law};
ghost use Rattle.theory.specs.Measures.{Measures};
ghost use Rattle.theory.specs.Joints.{Joined};
ghost use Rattle.theory.specs.Examples.{Freed, Moved, OldNumberForwarded, KeptForEvents, OverwrittenInRoots, OverwrittenInMarking, MadeInPageToBeSwept, MadeInSweptPage};

// What a store promises after every list of calls.
pub fn law_of_every_run()
    ensures { Law }
{}

// Bounds that a program needs of its own numbers.
pub fn units_and_work_list_fit()
    ensures { Measures }
{}

// What a crate that cites the law needs beside it.
pub fn runs_are_put_together()
    ensures { Joined }
{}

// A record that nothing names is freed.
pub fn dropped_record_is_freed()
    ensures { Freed }
{}

// A record is moved, and a place with its old number reads it.
pub fn moved_record_is_read_by_its_old_number()
    ensures { Moved }
{}

// An old number is the same as the new one, and the next collection puts the new one in its place.
pub fn old_number_is_forwarded()
    ensures { OldNumberForwarded }
{}

// Records that only events name are kept, and come in order.
pub fn records_of_events_are_kept()
    ensures { KeptForEvents }
{}

// The only place of a record is overwritten during roots, and the record is held at the end.
pub fn record_overwritten_in_roots_is_held()
    ensures { OverwrittenInRoots }
{}

// The only reference to a record is overwritten during marking, and the record is held at the end.
pub fn record_overwritten_in_marking_is_held()
    ensures { OverwrittenInMarking }
{}

// A record made in a page still to be swept is held at the end.
pub fn record_made_in_page_to_be_swept_is_held()
    ensures { MadeInPageToBeSwept }
{}

// A record made in a page already swept is held at the end.
pub fn record_made_in_swept_page_is_held()
    ensures { MadeInSweptPage }
{}
