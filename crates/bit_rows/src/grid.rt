// A grid of bits: 512 rows of 512 columns, each row in words of 64 bits.
ghost use Rattle.std.specs.Prelude.{◌≡◌, ◌+◌, ◌*◌, ◌/◌, ◌<◌, false, not, IfSome};
ghost use Rattle.std.proofs.Common.{rules};
ghost use Rattle.needs.specs.Pairs.{limit, no_pairs, with_pair, count, Next};
ghost use Rattle.bit_rows.specs.Rows.{word_bit, row_bit, held, NextBelow};

use needs::{LIMIT, PairSet};
use refusal::StoreFault;

const WORD: usize = 64;

const WORDS: usize = LIMIT / WORD;

// Row x has the pairs (x, y), so that the least of them is found by words, along the row. Arrays,
// since no row or word is ever out of use.
#[derive(Drop)]
pub struct Grid {
    rows: [[u64; WORDS]; LIMIT],
}

fn bit(word: u64, k: usize) -> bool
    requires { k < 64 }
    ensures { result ≡ word_bit word k }
{
    (word >> k) & 1 == 1
}

// The lowest bit that is set.
#[tactic(auto, using(crate::proofs::Lowest::lowest))]
fn first_bit(word: u64) -> Option<usize>
    ensures least { Next (word_bit word) 0 result }
    ensures inside { IfSome result (λ j. j < 64) }
{
    (word != 0).then(|| word.trailing_zeros() as usize)
}

// The least column that is set from `from` on, among those of one word with it.
fn next_in_word(row: &[u64; WORDS], from: usize) -> Option<usize>
    requires { from < limit }
    ensures { NextBelow (row_bit row.now) from ((from / 64 + 1) * 64) result }
{
    first_bit(row[from / WORD] >> (from % WORD)).map(|j| from + j)
}

// The least column that is set from k on.
fn next_column(row: &[u64; WORDS], k: usize) -> Option<usize>
    ensures { Next (row_bit row.now) k result }
{
    // By `find_map` the contract does not close.
    for word in k / WORD..WORDS {
        if let Some(y) = next_in_word(row, k.max(word * WORD)) {
            return Some(y);
        }
    }
    None
}

fn no_bits() -> [[u64; WORDS]; LIMIT]
    ensures { held result ≡ no_pairs }
{
    [[0; WORDS]; LIMIT]
}

impl Grid {
    // Takes (x, y) out where it is in the set, and else puts it in, for which there is always a
    // place.
    fn flip(&mut self, x: usize, y: usize)
        requires { (x < limit) × (y < limit) }
        ensures set { held self.new.rows ≡ with_pair x y (not (held self.old.rows x y)) (held self.old.rows) }
        ensures room { held self.old.rows x y ≡ false → count (held self.old.rows) < limit * limit }
    {
        self.rows[x][y / WORD] ^= 1 << (y % WORD);
    }
}

impl PairSet for Grid {
    ghost use Rattle.bit_rows.specs.Grids.{pairs};

    ghost has = { pairs };

    ghost places = { limit * limit };

    ghost within = { unfold held in Prim.search rules };

    ghost some_place = { Prim.search rules };

    fn empty() -> Self {
        Grid { rows: no_bits() }
    }

    fn insert(&mut self, x: usize, y: usize) -> Result<(), StoreFault> {
        if x >= LIMIT || y >= LIMIT {
            return Err(StoreFault::TooLarge);
        }
        if self.contains(x, y) {
            return Err(StoreFault::Present);
        }
        self.flip(x, y);
        Ok(())
    }

    #[tactic(auto, unfolding(crate::specs::Rows::held))]
    fn remove(&mut self, x: usize, y: usize) -> Result<(), StoreFault> {
        if !self.contains(x, y) {
            return Err(StoreFault::Absent);
        }
        self.flip(x, y);
        Ok(())
    }

    fn clear(&mut self) {
        self.rows = no_bits();
    }

    #[tactic(auto, unfolding(crate::specs::Rows::held))]
    fn contains(&self, x: usize, y: usize) -> bool {
        x < LIMIT && y < LIMIT && bit(self.rows[x][y / WORD], y % WORD)
    }

    #[tactic(auto, unfolding(crate::specs::Rows::held))]
    fn next(&self, x: usize, k: usize) -> Option<usize> {
        self.rows.get(x).and_then(|row| next_column(row, k))
    }
}
