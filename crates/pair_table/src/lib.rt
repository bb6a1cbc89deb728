// A need store of 4,096 pairs in fixed memory, kept in order by task and once more by need.
#![tactic(auto)]

use needs::TwoWay;
pub use sorted::SortedPairs;

mod sorted;

pub type PairTable = TwoWay<SortedPairs>;
