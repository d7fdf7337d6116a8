// The standard sheet (paper 02), found by comparing sheets.
use crate::Small;
use crate::rules::{above, feasible, rank_of};

// The best of the sheets so far: the highest rank, the cells that read highest of those with this rank, and whether there are several.
// Of all sheets of a book, those with the highest rank are the settled ones.
#[derive(Clone, Copy)]
pub struct Best {
    pub rank: [u64; 8],
    pub cells: [u16; 12],
    pub several: bool,
}

// One sheet alone.
pub fn best_alone(s: Small, cells: [u16; 12]) -> Best {
    Best {
        rank: rank_of(s, &cells),
        cells,
        several: false,
    }
}

// Whether cells are above others, read seat by seat and within a seat window by window (paper 01: dictionary order).
fn reads_higher(a: [u16; 12], b: [u16; 12]) -> bool {
    for k in 0..12usize {
        let x = a[k];
        let y = b[k];
        if x != y {
            return y < x;
        }
    }
    false
}

// Of two sheets the one that reads higher.
fn higher(a: [u16; 12], b: [u16; 12]) -> [u16; 12] {
    if reads_higher(a, b) {
        return a;
    }
    b
}

// What is best with one more sheet.
pub fn better(best: Best, s: Small, cells: [u16; 12]) -> Best {
    if !feasible(s, &cells) {
        return best;
    }
    let next = best_alone(s, cells);
    let rank = next.rank;
    let before = best.rank;
    if above(rank, before, 8) {
        return next;
    }
    if above(before, rank, 8) {
        return best;
    }
    let other = best.cells;
    Best {
        rank,
        cells: higher(cells, other),
        several: true,
    }
}
