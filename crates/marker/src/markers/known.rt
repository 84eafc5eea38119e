// What a marker knows of its task.
ghost use Rattle.marker.specs.Shows.{Shows};
ghost use Rattle.reach.specs.Relaxed.{GoalInReach};
ghost use Rattle.rules.specs.Machine.{Lowest, Machine, MissedGoal};
ghost use Rattle.rules.specs.declared.calls.Refusal.TheVariants.{GoalOutOfReach};
ghost use Rattle.std.specs.Prelude.{◌≡◌, ℕ, MatchOption, MatchResult};

use super::Marker;
use rules::calls::Refusal;
use task::task_source::TaskSource;

impl<S: TaskSource> Marker<S> {
    // The source of the task.
    pub fn source(&self) -> &S
        ensures { result.now ≡ self.now.source }
    {
        &self.source
    }

    // The lowest goal fact out of reach, if any.
    pub fn missed(&self) -> Option<usize>
        ensures { (m : Machine) → Shows (S.task self.now.source) self.now m → MatchOption result (GoalInReach (S.task self.now.source)) (Lowest (MissedGoal (S.task self.now.source))) }
    {
        self.missed
    }

    // Refuses a call where a goal fact is out of reach.
    pub(super) fn check_goal(&self) -> Result<(), Refusal>
        ensures { MatchResult result (λ _. self.now.missed ≡ None) (λ e. (n : ℕ) × (self.now.missed ≡ Some n) × (e ≡ GoalOutOfReach n)) }
    {
        match self.missed {
            Some(goal) => Err(Refusal::GoalOutOfReach(goal)),
            None => Ok(()),
        }
    }
}
