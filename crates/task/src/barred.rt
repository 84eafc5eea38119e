// A task without the actions that achieve one fact.
ghost use Rattle.std.specs.Prelude.{◌≡◌, Some};
ghost use Rattle.task.specs.Facts.{Exactly};
ghost use Rattle.task.specs.Limits.{barred_by_lawful};
ghost use Rattle.task.specs.Paths.{barred_by};
ghost use Rattle.task.specs.Task.{Numbered};

use crate::facts::{Fact, fact_at};
use crate::task_source::TaskSource;

// A source without the actions that achieve its fact, if it has one.
#[derive(Drop)]
pub struct Barred<S> {
    inner: S,
    fact: Option<Fact>,
}

impl<S: TaskSource> Barred<S> {
    // The task of `inner` without the actions that achieve `fact`.
    pub fn new(inner: S, fact: Fact) -> Barred<S>
        ensures inner { result.inner ≡ inner }
        ensures fact { result.fact ≡ Some fact }
    {
        Barred {
            inner,
            fact: Some(fact),
        }
    }

    // The task of `inner` without the actions that achieve the fact with this number; a number that no fact has bars nothing.
    pub fn by_number(inner: S, number: usize) -> Barred<S>
        ensures inner { result.inner ≡ inner }
        ensures fact { Exactly (Numbered (S.task inner) number) result.fact }
    {
        let fact = fact_at(&inner, number);
        Barred { inner, fact }
    }
}

// What is passed on is written out: the language has no delegation, and an own macro may write no `impl`.
impl<S: TaskSource> TaskSource for Barred<S> {
    ghost task = { λ s. barred_by (S.TaskSource.task s.inner) s.fact };

    ghost lawful = { λ s. barred_by_lawful (S.TaskSource.lawful s.inner) s.fact };

    fn variables(&self) -> usize {
        self.inner.variables()
    }

    fn size(&self, variable: usize) -> usize {
        self.inner.size(variable)
    }

    fn start(&self, variable: usize) -> usize {
        self.inner.start(variable)
    }

    fn goal(&self, variable: usize) -> Option<usize> {
        self.inner.goal(variable)
    }

    fn actions(&self) -> usize {
        self.inner.actions()
    }

    fn is_present(&self, action: usize) -> bool {
        let is_kept = |fact: Fact| self.inner.effect(action, fact.variable) != Some(fact.value);
        self.inner.is_present(action) && self.fact.is_none_or(is_kept)
    }

    fn need(&self, action: usize, variable: usize) -> Option<usize> {
        self.inner.need(action, variable)
    }

    fn effect(&self, action: usize, variable: usize) -> Option<usize> {
        self.inner.effect(action, variable)
    }

    fn offset(&self, variable: usize) -> usize {
        self.inner.offset(variable)
    }

    fn next_need(&self, action: usize, variable: usize) -> Option<Fact> {
        self.inner.next_need(action, variable)
    }

    fn next_effect(&self, action: usize, variable: usize) -> Option<Fact> {
        self.inner.next_effect(action, variable)
    }

    fn next_user(&self, fact: Fact, action: usize) -> Option<usize> {
        self.inner.next_user(fact, action)
    }

    fn next_achiever(&self, fact: Fact, action: usize) -> Option<usize> {
        self.inner.next_achiever(fact, action)
    }

    fn count_needs(&self, action: usize) -> usize {
        self.inner.count_needs(action)
    }
}
