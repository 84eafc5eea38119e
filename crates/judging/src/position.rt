// Positions: a value for each variable, and 0 past them.
ghost use Rattle.std.specs.Prelude.{◌≡◌, ℕ, MatchOption};
ghost use Rattle.judging.specs.Counted.{GoalAt};
ghost use Rattle.judging.specs.Position.{Marked, Met, state_of};
ghost use Rattle.reach.specs.Relaxed.{GoalInReach};
ghost use Rattle.rules.specs.Machine.{Lowest, Unmet};
ghost use Rattle.task.specs.Paths.{after, restarted};

use crate::fact_set::FactSet;
use crate::measures::goal_level;
use task::restarted::Restarted;
use task::task_source::TaskSource;

#[derive(Clone, Copy)]
pub struct Position {
    values: [usize; 64],
}

impl From<[usize; 64]> for Position {
    ghost from_gives = { λ values p. p.values ≡ values };

    fn from(given: [usize; 64]) -> Position {
        Position { values: given }
    }
}

impl Position {
    // The start of a task.
    pub fn start_of<S: TaskSource>(source: &S) -> Position
        ensures { (v : ℕ) → state_of result v ≡ (S.task source.now).start v }
    {
        let mut position = Position { values: [0; 64] };
        position.put_start(source);
        position
    }

    // Puts the start of a task there. Not by `array::from_fn`: the proof of its closure came near a limit of the check.
    pub fn put_start<S: TaskSource>(&mut self, source: &S)
        ensures { (v : ℕ) → state_of self.new v ≡ (S.task source.now).start v }
    {
        for (variable, value) in self.values.iter_mut().enumerate() {
            *value = source.start(variable);
        }
    }

    // The value of a variable, 0 past the last one.
    pub fn value(&self, variable: usize) -> usize
        ensures { result ≡ state_of self.now variable }
    {
        self.values.get(variable).copied().unwrap_or(0)
    }

    // Puts the effects of an action there; by index, since the source answers by number.
    pub fn advance<S: TaskSource>(&mut self, source: &S, action: usize)
        ensures { (v : ℕ) → state_of self.new v ≡ after (S.task source.now) (state_of self.old) action v }
    {
        for variable in 0..source.variables() {
            if let Some(value) = source.effect(action, variable) {
                self.values[variable] = value;
            }
        }
    }

    // Puts the facts that hold there into a set.
    pub fn mark_facts<S: TaskSource>(&self, source: &S, marks: &mut FactSet)
        ensures { Marked (S.task source.now) marks.old (state_of self.now) (S.task source.now).vars marks.new }
    {
        let mut offset = 0;
        for variable in 0..source.variables() {
            let size = source.size(variable);
            let value = self.value(variable);
            if value < size {
                let number = offset + value;
                marks.insert(number);
            }
            offset += size;
        }
    }

    // The lowest number of a condition of an action that does not hold there. A `for`: in a chain the closure would owe the bound of its sum.
    pub fn first_unmet<S: TaskSource>(&self, source: &S, action: usize) -> Option<usize>
        ensures { MatchOption result (Met (S.task source.now) (state_of self.now) action) (Lowest (Unmet (S.task source.now) (state_of self.now) action)) }
    {
        let mut offset = 0;
        for variable in 0..source.variables() {
            if let Some(value) = source.need(action, variable) {
                if self.value(variable) != value {
                    return Some(offset + value);
                }
            }
            offset += source.size(variable);
        }
        None
    }

    // The greatest level of a goal fact from there, 0 without goals: `None` where a goal fact is out of reach.
    pub fn goal_level<S: TaskSource>(&self, source: &S) -> Option<u16>
        ensures { MatchOption result (GoalInReach (restarted (S.task source.now) (state_of self.now)) → ⊥) (GoalAt (restarted (S.task source.now) (state_of self.now))) }
    {
        let here = Restarted::new(source, &self.values);
        goal_level(&here)
    }
}
