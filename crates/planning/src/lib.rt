// Any call on the graph, and the order in which its events come.
#![tactic(auto)]

ghost use Rattle.std.specs.Prelude.{OnOk};
ghost use Rattle.histories.specs.Order.{Continues};
ghost use Rattle.graph.specs.View.{graph_of, agenda_of};
ghost use Rattle.graph.specs.Performs.{PerformsIfMemory};

use calls::{Answer, Call, Refusal};
use graph::Graph;
use std::alloc::AllocError;

// Performs a call, or says that no memory is left for it. The calls of a collection change nothing.
// Whatever calls came before this one, events are taken in order and the clock does not fall.
#[tactic(auto, using(crate::proofs::Orderly::performed))]
pub fn perform(graph: &mut Graph, call: Call) -> Result<Result<Answer, Refusal>, AllocError>
    ensures does { PerformsIfMemory (λ a. a) call graph.old graph.new result }
    ensures orderly { OnOk result (Continues (agenda_of graph.old) call (graph_of graph.old) (graph_of graph.new)) }
{
    dispatch(graph, call)
}

// Hands a call on to the method of its kind, as a store does: here two calls may want memory, and those of a collection do nothing.
fn dispatch(graph: &mut Graph, call: Call) -> Result<Result<Answer, Refusal>, AllocError>
    ensures { PerformsIfMemory (λ a. a) call graph.old graph.new result }
{
    let answer = match call {
        Call::Make {
            place,
            references,
            words,
        } => graph.make(place, references, words)?.map(|()| Answer::Done),
        Call::Load {
            into,
            from,
            reference,
        } => graph.load(into, from, reference).map(|()| Answer::Done),
        Call::Store {
            into,
            reference,
            from,
        } => graph.store(into, reference, from).map(|()| Answer::Done),
        Call::Read { from, word } => graph.read(from, word).map(Answer::Word),
        Call::Write { into, word, value } => graph.write(into, word, value).map(|()| Answer::Done),
        Call::Copy { into, from } => graph.copy(into, from).map(|()| Answer::Done),
        Call::Clear { place } => graph.clear(place).map(|()| Answer::Done),
        Call::Same { left, right } => graph.same(left, right).map(Answer::Same),
        Call::Shape { place } => graph
            .shape(place)
            .map(|(references, words)| Answer::Shape { references, words }),
        Call::Schedule { time, place } => graph.schedule(time, place)?.map(|()| Answer::Done),
        Call::Next { into } => graph.next(into).map(Answer::Time),
        Call::Begin | Call::Step { .. } | Call::Count => Ok(Answer::Done),
    };
    Ok(answer)
}
