// Which facts are in relaxed reach, and from which layer on.
// Two calls of one generic function: what they promise differs, since each measure has a theorem of its own.
ghost use Rattle.reach.specs.Built.{FactsBuilt, LevelsBuilt, ReachBuilt, TooShort};
ghost use Rattle.std.specs.Option.{MatchOption};

use crate::layers::build_layers;
use crate::measure::{AtLevel, InReach};
use task::task_source::TaskSource;

// Says of each fact, by its number, whether it is in reach, and answers the number of layers; `None` where a table is shorter than the
// facts, and changes neither then. Both tables hold the answer.
pub fn build_reach<S: TaskSource>(
    source: &S,
    reach: &mut [InReach],
    scratch: &mut [InReach],
) -> Option<usize>
    ensures { MatchOption result (TooShort (S.task source.now) reach.old scratch.old reach.new scratch.new) (λ n. FactsBuilt (S.task source.now) ReachBuilt n reach.old scratch.old reach.new scratch.new) }
{
    build_layers(source, reach, scratch)
}

// Says of each fact, by its number, in which layer it is first, if in any, and answers the number of layers; `None` where a table is
// shorter than the facts, and changes neither then. Both tables hold the answer.
pub fn build_levels<S: TaskSource>(
    source: &S,
    levels: &mut [AtLevel],
    scratch: &mut [AtLevel],
) -> Option<usize>
    ensures { MatchOption result (TooShort (S.task source.now) levels.old scratch.old levels.new scratch.new) (λ n. FactsBuilt (S.task source.now) LevelsBuilt n levels.old scratch.old levels.new scratch.new) }
{
    build_layers(source, levels, scratch)
}
