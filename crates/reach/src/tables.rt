// Tables of what a task reaches, one value for each fact by its number. A task has 256 facts at most, so a table always has room.
// Two structs, since what they promise and answer differs: a table of any measure would promise neither.
ghost use Rattle.std.specs.Prelude.{◌≡◌, ◌-◌, ◌≤◌, false, get_or, slice_index_or};
ghost use Rattle.reach.specs.Built.{LevelsBuilt, ReachBuilt};
ghost use Rattle.reach.specs.Measures.{layer_of, of_level, of_yes};
ghost use Rattle.reach.specs.Relaxed.{LayerCount};
ghost use Rattle.task.specs.Task.{facts};

use crate::measure::{AtLevel, InReach};
use crate::reach::{build_levels, build_reach};
use task::task_source::TaskSource;

// Which facts of a task are in reach.
#[derive(Clone, Copy)]
pub struct ReachTable {
    table: [InReach; 256],
}

impl ReachTable {
    // The reach of a task.
    pub fn of<S: TaskSource>(source: &S) -> ReachTable
        ensures { ReachBuilt (S.task source.now) result.table }
    {
        let mut table = [InReach { yes: false }; 256];
        let mut scratch = table;
        build_reach(source, &mut table, &mut scratch).unwrap();
        ReachTable { table }
    }

    // Whether the fact with a number is in reach: no for a number past the table.
    pub fn has(&self, number: usize) -> bool
        ensures { result ≡ (get_or self.now.table number (of_yes false)).yes }
    {
        self.table.get(number).is_some_and(|value| value.yes)
    }
}

// A table that was filled elsewhere, as by `build_reach`.
impl From<[InReach; 256]> for ReachTable {
    ghost from_gives = { λ values r. r.table ≡ values };

    fn from(given: [InReach; 256]) -> ReachTable {
        ReachTable { table: given }
    }
}

// In which layer each fact of a task is first, and how many layers there are.
#[derive(Clone, Copy)]
pub struct LevelTable {
    table: [AtLevel; 256],
    layers: usize,
}

impl LevelTable {
    // The levels of a task.
    pub fn of<S: TaskSource>(source: &S) -> LevelTable
        ensures levels { LevelsBuilt (S.task source.now) result.table }
        ensures layers { LayerCount (S.task source.now) result.layers }
        ensures few { result.layers ≤ facts (S.task source.now) - (S.task source.now).vars }
    {
        let mut table = [AtLevel { level: u16::MAX }; 256];
        let mut scratch = table;
        let layers = build_levels(source, &mut table, &mut scratch).unwrap();
        LevelTable { table, layers }
    }

    // The first layer that has the fact with a number, if any: none for a number past the table.
    pub fn level(&self, number: usize) -> Option<u16>
        ensures { result ≡ layer_of (slice_index_or self.now.table number (of_level 65535)) }
    {
        self.table.get(number).and_then(|value| value.layer())
    }

    // How many layers there are.
    pub fn layers(&self) -> usize
        ensures { result ≡ self.now.layers }
    {
        self.layers
    }
}
