// Whether the goal of a task is in reach, and whether a fact is a landmark.
ghost use Rattle.std.specs.Prelude.{◌<◌, Decides, MatchOption};
ghost use Rattle.reach.specs.Built.{ReachBuilt};
ghost use Rattle.reach.specs.Relaxed.{GoalInReach};
ghost use Rattle.rules.specs.Machine.{Lowest, MissedGoal};
ghost use Rattle.rules.specs.Marks.{Landmark};

use reach::measure::InReach;
use reach::tables::ReachTable;
use task::barred::Barred;
use task::facts::Fact;
use task::task_source::TaskSource;

// The lowest number of a goal fact that a table of the reach lacks. A `for`: in a chain the closure would owe the bound of its sum.
fn first_missed<S: TaskSource>(source: &S, reach: &ReachTable) -> Option<usize>
    ensures { ReachBuilt (S.task source.now) reach.now.table → MatchOption result (GoalInReach (S.task source.now)) (Lowest (MissedGoal (S.task source.now))) }
{
    let mut offset = 0;
    for variable in 0..source.variables() {
        if let Some(value) = source.goal(variable) {
            let number = offset + value;
            if !reach.has(number) {
                return Some(number);
            }
        }
        offset += source.size(variable);
    }
    None
}

// Fills the table of the reach, and answers the lowest number of a goal fact out of it: `None` where the goal is in reach.
pub fn missed_goal<S: TaskSource>(source: &S, reach: &mut ReachTable) -> Option<usize>
    ensures reach { ReachBuilt (S.task source.now) reach.new.table }
    ensures missed { MatchOption result (GoalInReach (S.task source.now)) (Lowest (MissedGoal (S.task source.now))) }
{
    *reach = ReachTable::of(source);
    first_missed(source, reach)
}

// Whether no relaxed sequence reaches the goal without a fact.
pub fn is_landmark<S: TaskSource>(source: &S, fact: Fact) -> bool
    ensures { fact.variable < (S.task source.now).vars → Decides result (Landmark (S.task source.now) fact) }
{
    if source.start(fact.variable) == fact.value {
        return true;
    }
    let mut reach = ReachTable::from([InReach { yes: false }; 256]);
    let barred = Barred::new(source, fact);
    missed_goal(&barred, &mut reach).is_some()
}
