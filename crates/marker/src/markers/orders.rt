// Orderings of the facts of a key.
ghost use Rattle.marker.specs.Answers.{tallied};
ghost use Rattle.marker.specs.Shows.{Answered};
ghost use Rattle.rules.specs.Results.{marked};
ghost use Rattle.rules.specs.declared.calls.Call.TheVariants.{Order};
ghost use Rattle.std.specs.Prelude.{◌≡◌};

use super::Marker;
use judging::achievers::lacking_action;
use rules::calls::{Kind, Mark, Refusal};
use task::facts::fact_at;
use task::task_source::TaskSource;

impl<S: TaskSource> Marker<S> {
    // Takes an ordering of two facts of the key if all achievers of the later one that count need the earlier one. The kind comes by its
    // number, since the rules answer a number of no kind too.
    pub fn order(&mut self, kind: usize, earlier: usize, later: usize) -> Result<Mark, Refusal>
        ensures source { self.new.source ≡ self.old.source }
        ensures tally { self.new.tally ≡ tallied self.old.tally (marked result) }
        ensures turn { Answered (S.task self.old.source) self.old (Order kind earlier later) (marked result) self.new }
    {
        self.check_goal()?;
        let sort = Kind::try_from(kind)?;
        let first = fact_at(&self.source, earlier).ok_or(Refusal::NoSuch(earlier))?;
        let second = fact_at(&self.source, later).ok_or(Refusal::NoSuch(later))?;
        if !self.held.contains(earlier) {
            return Err(Refusal::OutsideKey(earlier));
        }
        if !self.held.contains(later) {
            return Err(Refusal::OutsideKey(later));
        }
        if self.source.start(second.variable) == second.value {
            return Err(Refusal::LaterAtStart(later));
        }
        if self.orderings.contains(sort, earlier, later) {
            return Ok(Mark::Known);
        }
        // An `if let` and no `?`, since the tally goes up too.
        if let Some(action) = lacking_action(&self.source, &self.reach, sort, first, second) {
            self.tally = self.tally.saturating_add(1);
            return Err(Refusal::Unordered(action));
        }
        self.orderings.insert(sort, earlier, later);
        Ok(Mark::Accepted)
    }
}
