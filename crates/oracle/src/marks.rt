// Whether what is said of a feasible sheet is right. The best sheet's rank is known; its totals are the settled ones.
use crate::Small;
use crate::paths::play;
use crate::rules::{above, feasible, rank_of, wasted};

// A mark and what comes with it: a window and a seat, or the number of moves. What a mark does not use is 0.
#[derive(Clone, Copy)]
pub struct Told {
    pub mark: u8,
    pub window: usize,
    pub seat: usize,
    pub moves: usize,
}

// Mark 1 tells the place that is wasted, the others tell that there is none.
fn rightly_wasted(s: Small, cells: &[u16; 12], told: Told) -> bool {
    let place = wasted(s, cells);
    let there = place.window != 0;
    (there == (told.mark == 1)) & (told.window == place.window) & (told.seat == place.seat)
}

// Whether a sheet is feasible and its profile is the highest.
fn is_best(s: Small, best: [u64; 8], cells: &[u16; 12]) -> bool {
    feasible(s, cells) & !above(best, rank_of(s, cells), 4)
}

// Marks 3 and 4 tell that the profile is the highest, marks 1 and 2 that it is not. Mark 2: the profile after the moves is higher.
// Mark 3: it is the highest too, and the moves give an earlier seat more. Mark 4: the totals are the settled ones.
fn rightly_fair(s: Small, best: [u64; 8], cells: &[u16; 12], mark: u8, after: &[u16; 12]) -> bool {
    let rank = rank_of(s, cells);
    let next = rank_of(s, after);
    let highest = is_best(s, best, cells);
    match mark {
        1 => !highest,
        2 => !highest & feasible(s, after) & above(next, rank, 4),
        3 => highest & is_best(s, best, after) & above(next, rank, 8),
        4 => highest & !above(rank, best, 8) & !above(best, rank, 8),
        _ => false,
    }
}

pub fn rightly_marked(
    s: Small,
    best: [u64; 8],
    cells: [u16; 12],
    told: Told,
    moves: &[u8],
) -> bool {
    let caps = s.caps;
    let played = play(cells, &caps, moves, told.moves);
    let after = played.cells;
    played.right
        & rightly_wasted(s, &cells, told)
        & rightly_fair(s, best, &cells, told.mark, &after)
}
