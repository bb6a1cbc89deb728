// A set of pairs kept a second time with its pairs turned round, so that followers are found as
// needs are.
ghost use Rattle.std.specs.Prelude.{◌≡◌};
ghost use Rattle.needs.specs.Pairs.{Mirrors, no_pairs};

use crate::{NeedStore, PairSet};
use refusal::StoreFault;

#[derive(Drop)]
pub struct TwoWay<P: PairSet> {
    // Has (a, b) where a needs b.
    by_task: P,
    // Has (b, a) where a needs b.
    by_need: P,
    ghost mirrored: { Mirrors (P.has by_task) (P.has by_need) },
}

impl<P: PairSet> TwoWay<P> {
    pub fn new() -> Self
        ensures { ⟦<TwoWay<P> as NeedStore>⟧.has result ≡ no_pairs }
    {
        TwoWay {
            by_task: P::empty(),
            by_need: P::empty(),
        }
    }
}

impl<P: PairSet> NeedStore for TwoWay<P> {
    ghost use Rattle.needs.specs.TwoWays.{pairs};

    ghost has = { pairs };

    ghost places = { λ s. P.places };

    ghost within = { λ s. P.within s.by_task };

    ghost some_place = { λ s. P.some_place };

    // The second half has as many pairs as the first, and each of them turned round, so it answers
    // as the first did.
    #[tactic(auto, using(crate::proofs::Counts::count_mirrored))]
    fn insert(&mut self, a: usize, b: usize) -> Result<(), StoreFault> {
        self.by_task.insert(a, b)?;
        self.by_need.insert(b, a)
    }

    fn remove(&mut self, a: usize, b: usize) -> Result<(), StoreFault> {
        self.by_task.remove(a, b)?;
        self.by_need.remove(b, a)
    }

    fn clear(&mut self) {
        self.by_task.clear();
        self.by_need.clear();
    }

    fn contains(&self, a: usize, b: usize) -> bool {
        self.by_task.contains(a, b)
    }

    fn next_need(&self, a: usize, k: usize) -> Option<usize> {
        self.by_task.next(a, k)
    }

    fn next_follower(&self, b: usize, k: usize) -> Option<usize> {
        self.by_need.next(b, k)
    }
}
