// The most effects of an action, and the level of the goal.
ghost use Rattle.std.specs.Prelude.{◌≤◌, MatchOption};
ghost use Rattle.judging.specs.Counted.{GoalAt};
ghost use Rattle.reach.specs.Relaxed.{GoalInReach};
ghost use Rattle.rules.specs.Machine.{Effects, Width};

use reach::tables::LevelTable;
use task::task_source::TaskSource;

// How many effects an action has.
fn count_effects<S: TaskSource>(source: &S, action: usize) -> u16
    ensures count { Effects (S.task source.now) action result }
    ensures bound { result ≤ 64 }
{
    (0..source.variables())
        .filter(|variable| source.effect(action, *variable).is_some())
        .count() as u16
}

// The most effects of a present action. A `for`: of a chain with `max` the bound was proved, but not `Width`.
pub fn widest<S: TaskSource>(source: &S) -> u16
    ensures width { Width (S.task source.now) result }
    ensures bound { result ≤ 64 }
{
    let mut width = 0;
    for action in 0..source.actions() {
        if source.is_present(action) {
            width = count_effects(source, action).max(width);
        }
    }
    width
}

// The greatest level of a goal fact, 0 without goals: `None` where a goal fact is out of reach. A `for`, which `?` can leave.
pub fn goal_level<S: TaskSource>(source: &S) -> Option<u16>
    ensures { MatchOption result (GoalInReach (S.task source.now) → ⊥) (GoalAt (S.task source.now)) }
{
    let levels = LevelTable::of(source);
    let mut highest = 0;
    let mut offset = 0;
    for variable in 0..source.variables() {
        if let Some(value) = source.goal(variable) {
            let number = offset + value;
            let level = levels.level(number)?;
            highest = level.max(highest);
        }
        offset += source.size(variable);
    }
    Some(highest)
}
