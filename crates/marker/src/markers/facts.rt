// Proposals of facts.
ghost use Rattle.marker.specs.Answers.{tallied};
ghost use Rattle.marker.specs.Shows.{Answered};
ghost use Rattle.rules.specs.Results.{marked};
ghost use Rattle.rules.specs.declared.calls.Call.TheVariants.{Propose};
ghost use Rattle.std.specs.Prelude.{◌≡◌};

use super::Marker;
use judging::goals::is_landmark;
use rules::calls::{Mark, Refusal};
use task::facts::fact_at;
use task::task_source::TaskSource;

impl<S: TaskSource> Marker<S> {
    // Takes a fact into the key if it is a landmark.
    pub fn propose(&mut self, number: usize) -> Result<Mark, Refusal>
        ensures source { self.new.source ≡ self.old.source }
        ensures tally { self.new.tally ≡ tallied self.old.tally (marked result) }
        ensures turn { Answered (S.task self.old.source) self.old (Propose number) (marked result) self.new }
    {
        self.check_goal()?;
        let fact = fact_at(&self.source, number).ok_or(Refusal::NoSuch(number))?;
        if self.held.contains(number) {
            return Ok(Mark::Known);
        }
        if !is_landmark(&self.source, fact) {
            self.tally = self.tally.saturating_add(1);
            return Err(Refusal::NoLandmark(number));
        }
        self.held.insert(number);
        Ok(Mark::Accepted)
    }
}
