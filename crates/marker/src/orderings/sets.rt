// The sets of later facts.
ghost use Rattle.std.specs.Prelude.{◌≡◌, ℕ, ◌<◌, false, ◌&&◌, ◌||◌, ◌==◌, IfOk};
ghost use Rattle.rules.specs.declared.calls.Kind.{Kind as KindValue};
ghost use Rattle.rules.specs.Machine.{same_kind};
ghost use Rattle.marker.specs.Ordered.{ordered};

use super::Orderings;
use judging::fact_set::FactSet;
use rules::calls::Kind;
use std::alloc::{AllocError, Global};

impl Orderings {
    // No orderings.
    pub(crate) fn new(heap: Global) -> Result<Orderings, AllocError>
        ensures { IfOk result (λ o. (κ : KindValue) (e l : ℕ) → ordered o κ e l ≡ false) }
    {
        let greedy = vec![in heap; FactSet::empty(); 256]?;
        let necessary = vec![in heap; FactSet::empty(); 256]?;
        Ok(Orderings { greedy, necessary })
    }

    // Whether an earlier fact is ordered before a later one.
    pub(crate) fn contains(&self, kind: Kind, earlier: usize, later: usize) -> bool
        ensures { result ≡ ordered self.now kind earlier later }
    {
        let laters = match kind {
            Kind::Greedy => self.greedy.get(earlier),
            Kind::Necessary => self.necessary.get(earlier),
        };
        laters.is_some_and(|facts| facts.contains(later))
    }

    // Orders an earlier fact before a later one.
    pub(crate) fn insert(&mut self, kind: Kind, earlier: usize, later: usize)
        requires { (earlier < 256) × (later < 256) }
        ensures { (κ : KindValue) (e l : ℕ) → ordered self.new κ e l ≡ (ordered self.old κ e l || (same_kind κ kind && ((e == earlier) && (l == later)))) }
    {
        match kind {
            Kind::Greedy => self.greedy[earlier].insert(later),
            Kind::Necessary => self.necessary[earlier].insert(later),
        }
    }
}
