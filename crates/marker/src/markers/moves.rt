// The sitting of a marker.
ghost use Rattle.marker.specs.Answers.{tallied};
ghost use Rattle.marker.specs.Shows.{Answered};
ghost use Rattle.rules.specs.Results.{acted};
ghost use Rattle.rules.specs.declared.calls.Call.TheVariants.{Begin, Step};
ghost use Rattle.std.specs.Prelude.{◌≡◌};

use super::Marker;
use rules::calls::Refusal;
use task::task_source::TaskSource;

impl<S: TaskSource> Marker<S> {
    // Goes back to the start.
    pub fn begin(&mut self) -> Result<(), Refusal>
        ensures source { self.new.source ≡ self.old.source }
        ensures tally { self.new.tally ≡ tallied self.old.tally (acted result) }
        ensures turn { Answered (S.task self.old.source) self.old Begin (acted result) self.new }
    {
        self.check_goal()?;
        self.sitting.restart(&self.source);
        Ok(())
    }

    // Takes an action.
    pub fn step(&mut self, action: usize) -> Result<(), Refusal>
        ensures source { self.new.source ≡ self.old.source }
        ensures tally { self.new.tally ≡ tallied self.old.tally (acted result) }
        ensures turn { Answered (S.task self.old.source) self.old (Step action) (acted result) self.new }
    {
        self.check_goal()?;
        if !self.source.is_present(action) {
            return Err(Refusal::NoAction(action));
        }
        let full = self.sitting.steps >= u16::MAX;
        if full {
            return Err(Refusal::TooManySteps(action));
        }
        // An `if let` and no `?`, which would want a function for this one test.
        if let Some(number) = self.sitting.position.first_unmet(&self.source, action) {
            return Err(Refusal::UnmetCondition(number));
        }
        self.sitting.step(&self.source, action);
        Ok(())
    }
}
