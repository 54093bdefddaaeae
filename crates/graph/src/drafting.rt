// Building a plan: each call takes the draft one part further or refuses and leaves it as it was.
ghost use Rattle.std.specs.Prelude.{◌≡◌, [], length, OnErr};
ghost use Rattle.graph.specs.Drafts.{content, with_deadline, with_time, with_edge, deadline_refusal, step_refusal, edge_refusal, answered, unless};

use crate::draft::Draft;
use crate::edge::Edge;
use crate::graph::{Graph, LONGEST, MOST_STEPS};
use crate::refusal::Refusal;
use fixed::FixedList;

impl Draft {
    // A draft with nothing in it.
    pub fn new() -> Draft
        ensures { content result ≡ record { deadline = 0; times = []; edges = [] } }
    {
        Draft {
            graph: Graph::empty(),
            deadline: None,
            edges: FixedList::new(),
        }
    }

    // Sets the deadline, of 1 to 20,000 ticks; one that was set before gives way.
    pub fn set_deadline(&mut self, deadline: u16) -> Result<(), Refusal>
        ensures answer { result ≡ answered (deadline_refusal deadline) tt }
        ensures content { content self.new ≡ unless (deadline_refusal deadline) (content self.old) (with_deadline deadline (content self.old)) }
        ensures kept { OnErr result (self.new ≡ self.old) }
    {
        if !(1..=LONGEST).contains(&deadline) {
            return Err(Refusal::OutOfRange);
        }
        self.deadline = Some(deadline);
        Ok(())
    }

    // Adds a step with a worst-case time of 1 to 20,000 ticks and answers its number.
    pub fn add_step(&mut self, time: u16) -> Result<u8, Refusal>
        ensures answer { result ≡ answered (step_refusal (content self.old) time) (length (content self.old).times) }
        ensures content { content self.new ≡ unless (step_refusal (content self.old) time) (content self.old) (with_time time (content self.old)) }
        ensures kept { OnErr result (self.new ≡ self.old) }
    {
        let step = self.graph.count();
        if usize::from(step) >= MOST_STEPS {
            return Err(Refusal::TooManySteps);
        }
        if !(1..=LONGEST).contains(&time) {
            return Err(Refusal::OutOfRange);
        }
        self.graph.add_step(time);
        Ok(step)
    }

    // Adds an edge from a step to a higher one.
    pub fn add_edge(&mut self, from: u8, to: u8) -> Result<(), Refusal>
        ensures answer { result ≡ answered (edge_refusal (content self.old) from to) tt }
        ensures content { content self.new ≡ unless (edge_refusal (content self.old) from to) (content self.old) (with_edge (record { from = from; to = to }) (content self.old)) }
        ensures kept { OnErr result (self.new ≡ self.old) }
    {
        if from >= to || to >= self.graph.count() {
            return Err(Refusal::NotRising);
        }
        if self.graph.predecessors(to).contains(from) {
            return Err(Refusal::EdgeTwice);
        }
        self.graph.add_edge(from, to);
        // There is a place for each edge that the steps can have.
        let _ = self.edges.push(Edge { from, to });
        Ok(())
    }
}
