// What a key knows of its task.
ghost use Rattle.key.specs.Keys.{Shows, task_of};
ghost use Rattle.reach.specs.Relaxed.{GoalInReach};
ghost use Rattle.rules.specs.Machine.{Lowest, Machine, MissedGoal};
ghost use Rattle.table.specs.Meaning.{held};
ghost use Rattle.std.specs.Prelude.{◌≡◌, MatchOption};

use super::Key;
use table::task_table::TaskTable;

impl Key {
    // The key's own copy of the task.
    pub fn source(&self) -> &TaskTable
        ensures { held result.now ≡ task_of self.now }
    {
        self.marker.source()
    }

    // The lowest goal fact out of reach, if any: then every call is refused with it.
    pub fn missed(&self) -> Option<usize>
        ensures { (m : Machine) → Shows self.now m → MatchOption result (GoalInReach (task_of self.now)) (Lowest (MissedGoal (task_of self.now))) }
    {
        self.marker.missed()
    }
}
