// A need store that is never full: a bit for every pair, in 512 rows of 512, by task and once more
// by need.
#![tactic(auto)]

pub use grid::Grid;
use needs::TwoWay;

mod grid;

pub type BitRows = TwoWay<Grid>;
