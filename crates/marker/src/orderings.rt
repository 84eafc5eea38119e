// The orderings of a key.
ghost use Rattle.std.specs.Prelude.{◌≡◌, vec_len};

use judging::fact_set::FactSet;

// For each kind, and each fact that a task may have, the set of the later facts. A list for each kind, since a call asks of one alone.
#[derive(Drop)]
pub(crate) struct Orderings {
    greedy: Vec<FactSet>,
    necessary: Vec<FactSet>,
    ghost greedy_long: { vec_len greedy ≡ 256 },
    ghost necessary_long: { vec_len necessary ≡ 256 },
}

mod sets;
