// What is left of a sitting, and where it stands.
ghost use Rattle.std.specs.Prelude.{◌≡◌, ◌≤◌};
ghost use Rattle.judging.specs.Counted.{LeftIn, VisitedIn};
ghost use Rattle.rules.specs.Machine.{Count, quotient};
ghost use Rattle.task.specs.Task.{facts};

use super::Sitting;
use crate::fact_set::FactSet;
use crate::measures::widest;
use rules::calls::{Remainder, Standing};
use task::task_source::TaskSource;

// How many actions it takes at least for a number of effects.
fn quotient_of(owed: u16, width: u16) -> u16
    requires { (owed ≤ 256) × (width ≤ 64) }
    ensures { result ≡ quotient owed width }
{
    if owed == 0 || width == 0 {
        return 0;
    }
    (owed + width - 1) / width
}

impl Sitting {
    // How many steps are left at least, by the facts of a key and those visited; or that it is a dead end.
    pub fn remainder<S: TaskSource>(&self, source: &S, held: &FactSet) -> Remainder
        ensures { LeftIn (S.task source.now) held.now self.now result }
    {
        let Some(level) = self.position.goal_level(source) else {
            return Remainder::DeadEnd;
        };
        let owed = self.count_owed(source, held);
        let width = widest(source);
        Remainder::AtLeast(level.max(quotient_of(owed, width)))
    }

    // Where the sitting stands.
    pub fn standing<S: TaskSource>(&self, source: &S, held: &FactSet) -> Standing
        ensures steps { result.steps ≡ self.now.steps }
        ensures visited { Count (VisitedIn held.now self.now) (facts (S.task source.now)) result.visited }
        ensures remainder { LeftIn (S.task source.now) held.now self.now result.remainder }
    {
        Standing {
            steps: self.steps,
            visited: self.count_visited(source, held),
            remainder: self.remainder(source, held),
        }
    }
}
