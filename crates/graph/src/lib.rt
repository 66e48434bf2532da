// The graph that never collects, as a program: what the calls mean to a planner, with memory as the one bound.
#![tactic(auto)]

ghost use Rattle.std.specs.Prelude.{◌≡◌, IfOk};
ghost use Rattle.model.specs.Graph.{empty};
ghost use Rattle.graph.specs.View.{graph_of};

mod agenda;
mod events;
mod fields;
mod making;
mod named;
mod places;
mod records;
mod rows;

use events::Event;
use records::Record;
use std::alloc::{AllocError, Global};

// No Model: the calls' contracts speak of the room of the agenda too, which is no part of the graph.
// Records are numbered from 1 in the order in which they are made. Events stand newest first, and are at most
// as many as the agenda has places. A serial is the number of events that were scheduled before.
// A place or a reference holds a number, 0 for nil, and no option: so do the definitions, and both rows of a record are of one kind.
#[derive(Drop)]
pub struct Graph {
    heap: Global,
    records: Vec<Record>,
    places: Vec<u32>,
    events: Vec<Event>,
    agenda: u32,
    clock: u32,
    serial: u32,
}

impl Graph {
    // An empty graph with so many places, and room for so many events.
    pub fn new(heap: Global, places: u32, events: u32) -> Result<Graph, AllocError>
        ensures { IfOk result (λ g. (graph_of g ≡ empty places) × (g.agenda ≡ events)) }
    {
        Ok(Graph {
            heap,
            records: Vec::new(heap),
            places: vec![in heap; 0u32; places as usize]?,
            events: Vec::new(heap),
            agenda: events,
            clock: 0,
            serial: 0,
        })
    }
}
