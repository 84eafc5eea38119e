// The moves of a sitting.
ghost use Rattle.std.specs.Prelude.{◌≡◌, ℕ, ◌+◌, ◌<◌, min, List, [], ◌∷◌, ◌++◌};
ghost use Rattle.judging.specs.Position.{Marked, state_of};
ghost use Rattle.judging.specs.Sittings.{SitsAfter};
ghost use Rattle.task.specs.Paths.{after};

use super::Sitting;
use crate::fact_set::FactSet;
use crate::position::Position;
use task::task_source::TaskSource;

impl Sitting {
    // A sitting at the start of a task.
    pub fn start_of<S: TaskSource>(source: &S) -> Sitting
        ensures { SitsAfter (S.task source.now) [] result }
    {
        let position = Position::start_of(source);
        let mut visited = FactSet::empty();
        position.mark_facts(source, &mut visited);
        Sitting {
            position,
            visited,
            steps: 0,
        }
    }

    // Puts the sitting back at the start of a task; part by part, since a whole one would be made and copied.
    pub fn restart<S: TaskSource>(&mut self, source: &S)
        ensures { SitsAfter (S.task source.now) [] self.new }
    {
        self.position.put_start(source);
        self.visited = FactSet::empty();
        self.position.mark_facts(source, &mut self.visited);
        self.steps = 0;
    }

    // Takes an action; the steps are counted up to 65535.
    pub fn step<S: TaskSource>(&mut self, source: &S, action: usize)
        ensures position { (v : ℕ) → state_of self.new.position v ≡ after (S.task source.now) (state_of self.old.position) action v }
        ensures visited { Marked (S.task source.now) self.old.visited (state_of self.new.position) (S.task source.now).vars self.new.visited }
        ensures steps { self.new.steps ≡ min (self.old.steps + 1) 65535 }
        ensures moved { self.old.steps < 65535 → (moves : List ℕ) → SitsAfter (S.task source.now) moves self.old → SitsAfter (S.task source.now) (moves ++ action ∷ []) self.new }
    {
        self.position.advance(source, action);
        self.position.mark_facts(source, &mut self.visited);
        self.steps = self.steps.saturating_add(1);
    }
}
