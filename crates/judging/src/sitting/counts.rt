// Facts that are visited, and facts still to come.
ghost use Rattle.std.specs.Prelude.{◌≤◌, Decides};
ghost use Rattle.judging.specs.Counted.{OwedIn, VisitedIn};
ghost use Rattle.rules.specs.Machine.{Count};
ghost use Rattle.task.specs.Task.{facts};

use super::Sitting;
use crate::fact_set::FactSet;
use task::facts::{count_facts, fact_at};
use task::task_source::TaskSource;

impl Sitting {
    // How many facts of a key are visited.
    pub fn count_visited<S: TaskSource>(&self, source: &S, held: &FactSet) -> u16
        ensures { Count (VisitedIn held.now self.now) (facts (S.task source.now)) result }
    {
        (0..count_facts(source))
            .filter(|number| held.contains(*number) && self.visited.contains(*number))
            .count() as u16
    }

    // Whether a fact of the key is not visited, or a fact of the goal does not hold.
    fn is_owed<S: TaskSource>(&self, source: &S, held: &FactSet, number: usize) -> bool
        ensures { Decides result (OwedIn (S.task source.now) held.now self.now number) }
    {
        let Some(fact) = fact_at(source, number) else {
            return false;
        };
        if held.contains(number) && !self.visited.contains(number) {
            return true;
        }
        source.goal(fact.variable) == Some(fact.value)
            && self.position.value(fact.variable) != fact.value
    }

    // How many such facts there are.
    pub fn count_owed<S: TaskSource>(&self, source: &S, held: &FactSet) -> u16
        ensures count { Count (OwedIn (S.task source.now) held.now self.now) (facts (S.task source.now)) result }
        ensures bound { result ≤ 256 }
    {
        (0..count_facts(source))
            .filter(|number| self.is_owed(source, held, *number))
            .count() as u16
    }
}
