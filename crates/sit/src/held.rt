// What a key holds, as text: `facts 0,1,6 orderings 0:1:1,1:6:2 state 0,0,0`, a minus sign for none.
ghost use Rattle.std.specs.Prelude.{None};

use key::keys::Key;
use rules::calls::Kind;
use std::alloc::{AllocError, Global};
use std::fmt;
use task::facts::count_facts;
use task::task_source::TaskSource;

// Items with commas between them, printed as a minus sign where there are none.
#[derive(Drop)]
struct Items {
    text: String,
}

impl Items {
    fn new(heap: Global) -> Items {
        Items {
            text: String::new(heap),
        }
    }

    // Adds one more item.
    fn push<T: fmt::Display>(&mut self, item: &T) -> Result<(), AllocError> {
        if !self.text.is_empty() {
            self.text.push_str(",")?;
        }
        write!(self.text, "{item}")
    }
}

impl fmt::Display for Items {
    ghost output = { λ _. None };

    fn fmt<W: fmt::Write>(&self, f: &mut fmt::Formatter<W>) -> fmt::Result {
        if self.text.is_empty() {
            f.write_str("-")
        } else {
            f.write_str(self.text.as_str())
        }
    }
}

// An ordering that a key may have, printed with the number of its kind.
#[derive(Clone, Copy)]
struct Ordering {
    earlier: usize,
    later: usize,
    kind: Kind,
}

impl fmt::Display for Ordering {
    ghost output = { λ _. None };

    fn fmt<W: fmt::Write>(&self, f: &mut fmt::Formatter<W>) -> fmt::Result {
        let number = usize::from(self.kind);
        write!(f, "{}:{}:{number}", self.earlier, self.later)
    }
}

fn held_facts(heap: Global, key: &Key) -> Result<Items, AllocError> {
    let mut items = Items::new(heap);
    for number in (0..count_facts(key.source())).filter(|number| key.holds(*number)) {
        items.push(&number)?;
    }
    Ok(items)
}

// Adds the orderings of two facts, greedy-necessary and then necessary.
fn push_kinds(
    key: &Key,
    items: &mut Items,
    earlier: usize,
    later: usize,
) -> Result<(), AllocError> {
    for kind in [Kind::Greedy, Kind::Necessary] {
        if key.is_ordered(kind, earlier, later) {
            items.push(&Ordering {
                earlier,
                later,
                kind,
            })?;
        }
    }
    Ok(())
}

fn held_orderings(heap: Global, key: &Key) -> Result<Items, AllocError> {
    let mut items = Items::new(heap);
    let facts = count_facts(key.source());
    for (earlier, later) in (0..facts).flat_map(|earlier| (0..facts).map(move |later| (
        earlier, later,
    ))) {
        push_kinds(key, &mut items, earlier, later)?;
    }
    Ok(items)
}

fn state_reached(heap: Global, key: &Key) -> Result<Items, AllocError> {
    let mut items = Items::new(heap);
    for value in (0..key.source().variables()).map(|variable| key.value(variable)) {
        items.push(&value)?;
    }
    Ok(items)
}

// The facts and orderings that the key holds, and the state that the sitting has reached.
pub(crate) fn held_text(heap: Global, key: &Key) -> Result<String, AllocError> {
    let facts = held_facts(heap, key)?;
    let orderings = held_orderings(heap, key)?;
    let state = state_reached(heap, key)?;
    format!(in heap; "facts {facts} orderings {orderings} state {state}")
}
