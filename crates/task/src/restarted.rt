// A task started from another state.
ghost use Rattle.std.specs.Prelude.{◌≡◌, slice_index};
ghost use Rattle.task.specs.Limits.{restarted_lawful};
ghost use Rattle.task.specs.Paths.{restarted as from};

use crate::facts::Fact;
use crate::task_source::TaskSource;

#[derive(Drop)]
pub struct Restarted<'a, S> {
    inner: S,
    state: &'a [usize],
}

impl<'a, S: TaskSource> Restarted<'a, S> {
    // The task of `inner` started from `state`; a value that is no value of its variable counts as 0.
    pub fn new(inner: S, state: &'a [usize]) -> Restarted<'a, S>
        ensures inner { result.inner ≡ inner }
        ensures state { result.state.now ≡ state.now }
    {
        Restarted { inner, state }
    }
}

// What is passed on is written out: the language has no delegation, and an own macro may write no `impl`.
impl<'a, S: TaskSource> TaskSource for Restarted<'a, S> {
    ghost task = { λ s. from (S.TaskSource.task s.inner) (λ v. slice_index s.state.now v) };

    ghost lawful = { λ s. restarted_lawful (S.TaskSource.lawful s.inner) (λ v. slice_index s.state.now v) };

    fn variables(&self) -> usize {
        self.inner.variables()
    }

    fn size(&self, variable: usize) -> usize {
        self.inner.size(variable)
    }

    fn start(&self, variable: usize) -> usize {
        let is_value = |&value: &usize| value < self.inner.size(variable);
        self.state
            .get(variable)
            .copied()
            .filter(is_value)
            .unwrap_or(0)
    }

    fn goal(&self, variable: usize) -> Option<usize> {
        self.inner.goal(variable)
    }

    fn actions(&self) -> usize {
        self.inner.actions()
    }

    fn is_present(&self, action: usize) -> bool {
        self.inner.is_present(action)
    }

    fn need(&self, action: usize, variable: usize) -> Option<usize> {
        self.inner.need(action, variable)
    }

    fn effect(&self, action: usize, variable: usize) -> Option<usize> {
        self.inner.effect(action, variable)
    }

    fn offset(&self, variable: usize) -> usize {
        self.inner.offset(variable)
    }

    fn next_need(&self, action: usize, variable: usize) -> Option<Fact> {
        self.inner.next_need(action, variable)
    }

    fn next_effect(&self, action: usize, variable: usize) -> Option<Fact> {
        self.inner.next_effect(action, variable)
    }

    fn next_user(&self, fact: Fact, action: usize) -> Option<usize> {
        self.inner.next_user(fact, action)
    }

    fn next_achiever(&self, fact: Fact, action: usize) -> Option<usize> {
        self.inner.next_achiever(fact, action)
    }

    fn count_needs(&self, action: usize) -> usize {
        self.inner.count_needs(action)
    }
}
