// Reports on the sitting of a marker.
ghost use Rattle.marker.specs.Answers.{tallied};
ghost use Rattle.marker.specs.Shows.{Answered};
ghost use Rattle.rules.specs.Results.{reported};
ghost use Rattle.rules.specs.declared.calls.Call.TheVariants.{Report};
ghost use Rattle.std.specs.Prelude.{◌≡◌};

use super::Marker;
use rules::calls::{Refusal, Standing};
use task::task_source::TaskSource;

impl<S: TaskSource> Marker<S> {
    // Says where the sitting stands.
    pub fn report(&self) -> Result<Standing, Refusal>
        ensures tally { self.now.tally ≡ tallied self.now.tally (reported result) }
        ensures turn { Answered (S.task self.now.source) self.now Report (reported result) self.now }
    {
        self.check_goal()?;
        Ok(self.sitting.standing(&self.source, &self.held))
    }
}
