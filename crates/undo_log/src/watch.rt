//! Those who look on as steps are applied.
ghost use Rattle.std.specs.Prelude.{◌≡◌, ◌+◌};

use crate::entry::Invertible;
use std::sync::ledger::Ledger;
use step_count::Steps;

/// One who looks on as steps are applied.
pub trait Watch<T: Invertible<S>, S> {
    // What seeing a step just before it is applied to a state makes of the watcher. It is a relation
    // since memory may run out.
    ghost seen: { Self → T → S → Self → Type 0 };

    /// Sees a step just before it is applied to a state.
    fn see(&mut self, step: &T, state: &S)
        requires { T.fits step.now state.now }
        ensures { seen self.old step.now state.now self.new };
}

// A count of the steps.
impl<T: Invertible<S>, S, L: Ledger> Watch<T, S> for Steps<L> {
    ghost seen = { λ count step state more. more ≡ count + 1 };

    fn see(&mut self, _step: &T, _state: &S) {
        self.tick();
    }
}

// One who looks away.
#[derive(Drop)]
pub(crate) struct NoWatcher;

impl<T: Invertible<S>, S> Watch<T, S> for NoWatcher {
    ghost seen = { λ before step state after. Unit {0} };

    fn see(&mut self, _step: &T, _state: &S) {}
}
