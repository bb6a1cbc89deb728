// Pairs of numbers below 512 in rising order. A pair (x, y) is kept as the number 512 x + y, so that
// the pairs of one x stand together, and rise by y.
ghost use Rattle.std.specs.Prelude.{◌≡◌, ◌+◌, ◌*◌, ◌/◌, ◌%◌, ◌<◌, ◌≤◌, true, false, length, take, is_ok, nat_le, slice_index_or};
ghost use Rattle.std.proofs.Common.{rules};
ghost use Rattle.needs.specs.Pairs.{limit, count, with_pair, Next};
ghost use Rattle.ordered.specs.Order.{holds};
ghost use Rattle.pair_table.specs.Cells.{Rising, Small, Lower, FitsAt, Found, in_cells};

use needs::{LIMIT, PairSet};
use ordered::{shift_down, shift_up};
use refusal::StoreFault;

const PLACES: usize = 4096;

// An array and how many of its cells are in use, and no `ArrayVec`: emptying one of those writes
// over every cell in use.
#[derive(Drop)]
pub struct SortedPairs {
    cells: [u32; PLACES],
    len: usize,
    ghost room: { (len ≤ 4096) × (length cells ≡ 4096) },
    ghost rising: { Rising (take len cells) },
    ghost small: { Small (take len cells) },
    ghost counted: { count (in_cells (take len cells)) ≡ len },
}

// The number that stands for (x, y).
fn cell_of(x: usize, y: usize) -> u32
    requires { (x < limit) × (y < limit) }
    ensures { result ≡ x * limit + y }
{
    (x * LIMIT + y) as u32
}

impl SortedPairs {
    ghost use Rattle.pair_table.specs.Sorted.{used, pairs};

    fn is_full(&self) -> bool
        ensures { result ≡ nat_le 4096 (count (pairs self.now)) }
    {
        self.len >= PLACES
    }

    // How many cells lie below `cell`. By hand: the library's search takes up to twice the time upon few
    // cells.
    fn rank(&self, cell: u32) -> usize
        ensures { Lower (used self.now) cell result }
    {
        let mut low = 0;
        let mut high = self.len;
        while low < high {
            let middle = low + (high - low) / 2;
            if self.cells[middle] < cell {
                low = middle + 1;
            } else {
                high = middle;
            }
        }
        low
    }

    // Where the cell stands, or would stand.
    fn find(&self, cell: u32) -> Result<usize, usize>
        ensures place { Found (used self.now) cell result }
        ensures test { is_ok result ≡ holds (used self.now) cell }
    {
        let at = self.rank(cell);
        if at < self.len && self.cells[at] == cell {
            Ok(at)
        } else {
            Err(at)
        }
    }

    // Puts (x, y) in where it would stand.
    fn put_at(&mut self, at: usize, x: usize, y: usize)
        requires low { (x < limit) × (y < limit) }
        requires room { count (pairs self.old) < 4096 }
        requires place { FitsAt (used self.old) (x * limit + y) «at» }
        ensures set { pairs self.new ≡ with_pair x y true (pairs self.old) }
    {
        let len = self.len;
        let cells = &mut self.cells[..];
        shift_up(&mut cells[at..len + 1], cell_of(x, y));
        self.len = len + 1;
    }

    // Takes out the pair whose cell stands at a place.
    fn take_at(&mut self, at: usize)
        requires { «at» < length (used self.old) }
        ensures { let cell = slice_index_or (used self.old) «at» 0 in pairs self.new ≡ with_pair (cell / limit) (cell % limit) false (pairs self.old) }
    {
        let len = self.len;
        let cells = &mut self.cells[..];
        shift_down(&mut cells[at..len]);
        self.len = len - 1;
    }

    // The least y from k on with (x, y) in the set.
    fn next_of(&self, x: usize, k: usize) -> Option<usize>
        ensures { Next (λ y. pairs self.now x y) k result }
    {
        if x >= LIMIT || k >= LIMIT {
            return None;
        }
        let at = self.rank(cell_of(x, k));
        if at >= self.len {
            return None;
        }
        let cell = self.cells[at] as usize;
        if cell / LIMIT == x {
            Some(cell % LIMIT)
        } else {
            None
        }
    }
}

impl PairSet for SortedPairs {
    ghost use Rattle.pair_table.specs.Sorted.{pairs};

    ghost has = { pairs };

    ghost places = { 4096 };

    ghost within = { Prim.search rules };

    ghost some_place = { Prim.search rules };

    #[tactic(auto, using(crate::proofs::Sets::count_no_cells))]
    fn empty() -> Self {
        SortedPairs {
            cells: [0; PLACES],
            len: 0,
        }
    }

    fn insert(&mut self, x: usize, y: usize) -> Result<(), StoreFault> {
        if x >= LIMIT || y >= LIMIT {
            return Err(StoreFault::TooLarge);
        }
        let Err(at) = self.find(cell_of(x, y)) else {
            return Err(StoreFault::Present);
        };
        if self.is_full() {
            return Err(StoreFault::Full);
        }
        self.put_at(at, x, y);
        Ok(())
    }

    fn remove(&mut self, x: usize, y: usize) -> Result<(), StoreFault> {
        if x >= LIMIT || y >= LIMIT {
            return Err(StoreFault::Absent);
        }
        let Ok(at) = self.find(cell_of(x, y)) else {
            return Err(StoreFault::Absent);
        };
        self.take_at(at);
        Ok(())
    }

    #[tactic(auto, using(crate::proofs::Sets::count_no_cells))]
    fn clear(&mut self) {
        self.len = 0;
    }

    fn contains(&self, x: usize, y: usize) -> bool {
        x < LIMIT && y < LIMIT && self.find(cell_of(x, y)).is_ok()
    }

    fn next(&self, x: usize, k: usize) -> Option<usize> {
        self.next_of(x, k)
    }
}
