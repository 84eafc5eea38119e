// A new marker.
ghost use Rattle.marker.specs.Shows.{Shows};
ghost use Rattle.rules.specs.Machine.{opened};
ghost use Rattle.std.specs.Prelude.{◌≡◌, IfOk};

use super::Marker;
use crate::orderings::Orderings;
use judging::fact_set::FactSet;
use judging::goals::missed_goal;
use judging::sitting::Sitting;
use reach::measure::InReach;
use reach::tables::ReachTable;
use std::alloc::{AllocError, Global};
use task::task_source::TaskSource;

impl<S: TaskSource + Drop> Marker<S> {
    // An empty key, and a sitting at the start of a task.
    pub fn open(heap: Global, source: S) -> Result<Marker<S>, AllocError>
        ensures source { IfOk result (λ k. k.source ≡ source) }
        ensures opened { IfOk result (λ k. Shows (S.task source) k opened) }
        ensures tally { IfOk result (λ k. k.tally ≡ 0) }
    {
        let orderings = Orderings::new(heap)?;
        let mut reach = ReachTable::from([InReach { yes: false }; 256]);
        let missed = missed_goal(&source, &mut reach);
        let sitting = Sitting::start_of(&source);
        Ok(Marker {
            source,
            reach,
            missed,
            held: FactSet::empty(),
            orderings,
            sitting,
            tally: 0,
        })
    }
}
