// Any call on a marker.
ghost use Rattle.marker.specs.Answers.{tallied};
ghost use Rattle.marker.specs.Shows.{Answered};
ghost use Rattle.std.specs.Prelude.{◌≡◌};

use super::Marker;
use rules::calls::{Answer, Call};
use task::task_source::TaskSource;

impl<S: TaskSource> Marker<S> {
    // Answers a call.
    pub fn answer(&mut self, call: Call) -> Answer
        ensures source { self.new.source ≡ self.old.source }
        ensures tally { self.new.tally ≡ tallied self.old.tally result }
        ensures turn { Answered (S.task self.old.source) self.old call result self.new }
    {
        match call {
            Call::Propose(number) => self.propose(number).into(),
            Call::Order(kind, earlier, later) => self.order(kind, earlier, later).into(),
            Call::Begin => self.begin().into(),
            Call::Step(action) => self.step(action).into(),
            Call::Report => self.report().into(),
        }
    }
}
