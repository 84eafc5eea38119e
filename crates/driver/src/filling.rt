// Filling a key: every fact is proposed, then every pair is ordered in both kinds. What the rules do not confirm is refused, and
// leaves the key as it was.
ghost use Rattle.driver.specs.Filling.{Grown, LandmarksHeld, OrderedFrom, OrderingsHeld};

use key::keys::Key;
use rules::calls::Kind;
use task::facts::count_facts;

// Proposes all facts upwards.
pub(crate) fn propose_all(key: &mut Key)
    ensures { Grown LandmarksHeld key.old key.new }
{
    for number in 0..count_facts(key.source()) {
        let _ = key.propose(number);
    }
}

// Orders a fact before each fact upwards, in both kinds.
fn order_from(key: &mut Key, earlier: usize)
    ensures { Grown (OrderedFrom earlier) key.old key.new }
{
    for later in 0..count_facts(key.source()) {
        let _ = key.order(Kind::Greedy.into(), earlier, later);
        let _ = key.order(Kind::Necessary.into(), earlier, later);
    }
}

// Orders all pairs of facts by the earlier and the later one.
pub(crate) fn order_all(key: &mut Key)
    ensures { Grown OrderingsHeld key.old key.new }
{
    for earlier in 0..count_facts(key.source()) {
        order_from(key, earlier);
    }
}
