// Need stores: a set of pairs of numbers below 512, in a fixed number of places.
#![tactic(auto)]

ghost use Rattle.std.specs.Prelude.{◌≡◌, ℕ, ◌≤◌, Bool, OnErr};
ghost use Rattle.refusal.specs.Answers.{answered, leaves};
ghost use Rattle.needs.specs.Pairs.{Within, no_pairs, put, take_out, Next};

use refusal::StoreFault;
pub use two_way::TwoWay;

mod two_way;

// The numbers of a store are below this.
pub const LIMIT: usize = 512;

// A store is known by its set and its places alone: an implementation proves that every call does
// to them what the call's contract says. Two numbers and no pair: every caller has them apart.
pub trait NeedStore {
    // (a, b) is in the set: a needs b.
    ghost has: { Self → ℕ → ℕ → Bool };

    // How many pairs it can hold.
    ghost places: { Self → ℕ };

    // Puts (a, b) into the set.
    fn insert(&mut self, a: usize, b: usize) -> Result<(), StoreFault>
        ensures answer { result ≡ answered (put (has self.old) (places self.old) a b) }
        ensures set { has self.new ≡ leaves (has self.old) (put (has self.old) (places self.old) a b) }
        ensures kept { OnErr result (has self.new ≡ has self.old) }
        ensures fixed { places self.new ≡ places self.old };

    // Takes (a, b) out of the set.
    fn remove(&mut self, a: usize, b: usize) -> Result<(), StoreFault>
        ensures answer { result ≡ answered (take_out (has self.old) a b) }
        ensures set { has self.new ≡ leaves (has self.old) (take_out (has self.old) a b) }
        ensures kept { OnErr result (has self.new ≡ has self.old) }
        ensures fixed { places self.new ≡ places self.old };

    // Leaves no pair in the set.
    fn clear(&mut self)
        ensures set { has self.new ≡ no_pairs }
        ensures fixed { places self.new ≡ places self.old };

    fn contains(&self, a: usize, b: usize) -> bool
        ensures { result ≡ has self.now a b };

    // The least need of a from k on.
    fn next_need(&self, a: usize, k: usize) -> Option<usize>
        ensures { Next (λ b. has self.now a b) k result };

    // The least follower of b from k on.
    fn next_follower(&self, b: usize, k: usize) -> Option<usize>
        ensures { Next (λ a. has self.now a b) k result };

    ghost within: { (s : Self) → Within (has s) };

    ghost some_place: { (s : Self) → 1 ≤ places s };
}

// One half of a store: a set of pairs that is asked for what stands with a first number. How many
// places it has is a matter of the type, so that two halves have as many. It is no supertrait of
// `NeedStore`, whose places are a store's own.
pub trait PairSet {
    // (x, y) is in the set.
    ghost has: { Self → ℕ → ℕ → Bool };

    // How many pairs it can hold.
    ghost places: { ℕ };

    fn empty() -> Self
        ensures { has result ≡ no_pairs };

    // Puts (x, y) into the set.
    fn insert(&mut self, x: usize, y: usize) -> Result<(), StoreFault>
        ensures answer { result ≡ answered (put (has self.old) places x y) }
        ensures set { has self.new ≡ leaves (has self.old) (put (has self.old) places x y) };

    // Takes (x, y) out of the set.
    fn remove(&mut self, x: usize, y: usize) -> Result<(), StoreFault>
        ensures answer { result ≡ answered (take_out (has self.old) x y) }
        ensures set { has self.new ≡ leaves (has self.old) (take_out (has self.old) x y) };

    // Leaves no pair in the set.
    fn clear(&mut self)
        ensures { has self.new ≡ no_pairs };

    fn contains(&self, x: usize, y: usize) -> bool
        ensures { result ≡ has self.now x y };

    // The least y from k on with (x, y) in the set.
    fn next(&self, x: usize, k: usize) -> Option<usize>
        ensures { Next (λ y. has self.now x y) k result };

    ghost within: { (s : Self) → Within (has s) };

    ghost some_place: { 1 ≤ places };
}
