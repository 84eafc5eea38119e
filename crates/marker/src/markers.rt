// A marker: the facts and orderings of a key, and a sitting in the task.
use crate::orderings::Orderings;
use judging::fact_set::FactSet;
use judging::sitting::Sitting;
use reach::tables::ReachTable;

// `reach` is the task's own reach and `missed` its lowest goal fact out of it. `held` and `orderings` are the key. `tally` counts the
// proposals and orderings that were not confirmed.
// Each call has its clauses one by one, and not as one record: the check finds `source` and `tally` by itself, and a proof file gives `turn`.
#[derive(Drop)]
pub struct Marker<S> {
    source: S,
    reach: ReachTable,
    missed: Option<usize>,
    held: FactSet,
    orderings: Orderings,
    sitting: Sitting,
    tally: u16,
}

mod calls;
mod facts;
mod known;
mod moves;
mod opening;
mod orders;
mod reports;
mod views;
