// Every sheet of a small book, marked, and what the marker says held against the rules; the planned sheet held against the standard one.
ghost use Rattle.std.specs.Prelude.{◌≤◌};

use crate::calls::{mark, plan_day, refused_idle};
use crate::tally::{Tally, count, count_if};
use dayfile::Day;
use draws::small::{draw_small, without_balances, without_weights};
use draws::{SMALL_ROOM, put_small};
use lawful::MOVES_ROOM;
use oracle::idle::{idle_above, idle_seat};
use oracle::marks::{Told, rightly_marked};
use oracle::memory::{book_of, grid_of};
use oracle::rules::feasible;
use oracle::standard::{Best, best_alone, better};
use oracle::{SHEETS, Small, next_sheet};
use say::{all_from, front};

// The best of all sheets. The sheet of zeros is the first.
fn best_of(s: Small) -> Best {
    let caps = s.caps;
    let mut cells = [0u16; 12];
    let mut best = best_alone(s, cells);
    for _ in 0..SHEETS {
        if !next_sheet(&mut cells, &caps) {
            return best;
        }
        best = better(best, s, cells);
    }
    best
}

// A mark, its number of moves, and whether it is right.
#[derive(Clone, Copy)]
struct Verdict {
    mark: u8,
    moves: usize,
    right: bool,
}

// Whether the bytes after a path of so many moves are still 255.
fn kept(moves: &[u8], count: usize) -> bool {
    count < 32 && all_from(moves, 3 * count, 255)
}

// What the marker says of a file with these cells.
fn judge_mark(s: Small, best: [u64; 8], cells: [u16; 12], file: &[u8]) -> Verdict {
    let mut moves = [255u8; MOVES_ROOM];
    let m = mark(file, &mut moves);
    let told = Told {
        mark: m.mark,
        window: m.window,
        seat: m.seat,
        moves: m.moves,
    };
    Verdict {
        mark: m.mark,
        moves: m.moves,
        right: rightly_marked(s, best, cells, told, &moves) & kept(&moves, m.moves),
    }
}

// A feasible sheet.
fn judge_sheet(tally: Tally, s: Small, best: [u64; 8], cells: [u16; 12]) -> Tally {
    let mut file = [0u8; SMALL_ROOM];
    let length = put_small(&mut file, s, true, cells);
    let v = judge_mark(s, best, cells, front(&file, length));
    count(count(tally, 0, v.mark as usize, v.right), 1, v.moves, true)
}

// Every feasible sheet.
fn judge_sheets(tally: Tally, s: Small, best: [u64; 8]) -> Tally {
    let caps = s.caps;
    let mut seen = tally;
    let mut cells = [0u16; 12];
    for _ in 0..SHEETS {
        if feasible(s, &cells) {
            let next = judge_sheet(seen, s, best, cells);
            seen = next;
        }
        if !next_sheet(&mut cells, &caps) {
            return seen;
        }
    }
    seen
}

// Whether a file is that of a book with these cells, a first seat that it names, its balances and its own weights included.
fn is_file(file: &[u8], s: Small, cells: [u16; 12]) -> bool {
    let mut written = [0u8; SMALL_ROOM];
    let length = put_small(&mut written, s, true, cells);
    check::same(file, front(&written, length))
}

// Whether the planned file is the book's with these cells. Its mark is judged with those of all feasible sheets.
fn rightly_planned(s: Small, cells: [u16; 12]) -> bool {
    let small = s.caps;
    let caps = grid_of(small);
    let mut out = [255u8; SMALL_ROOM];
    let end = plan_day(Day::new(book_of(s), caps, false, caps), &mut out);
    is_file(front(&out, end), s, cells)
}

// A book with an idle seat, the lowest of them given, which is not planned. Those with several such seats are counted apart.
fn judge_idle(tally: Tally, s: Small, seat: usize) -> Tally
    requires { seat ≤ 32 }
{
    let caps = s.caps;
    let mut file = [0u8; SMALL_ROOM];
    let length = put_small(&mut file, s, false, caps);
    let seen = count(tally, 2, 22, refused_idle(front(&file, length), seat));
    count_if(seen, idle_above(grid_of(caps), seat, s.seats) != 0, 2, 7)
}

// The plan of a book. Books with several settled sheets are counted apart, since only they have a settled sheet that is not the standard
// one. So are those with balances, and those that would be planned otherwise without; and those with weights of their own, likewise.
fn judge_plan(tally: Tally, s: Small, best: Best) -> Tally {
    let standard = best.cells;
    let number = if best.several { 2 } else { 1 };
    let seen = count(tally, 2, number, rightly_planned(s, standard));
    let seen = count_if(seen, s.has_balances, 2, 3);
    let decide = !rightly_planned(without_balances(s), standard);
    let seen = count_if(seen, decide, 2, 4);
    let seen = count_if(seen, s.has_weights, 2, 5);
    let decide = !rightly_planned(without_weights(s), standard);
    count_if(seen, decide, 2, 6)
}

// A random small book, planned unless a seat is idle, and each of its feasible sheets marked, whether or not one is.
pub fn judge(state: &mut u32, tally: Tally) -> Tally {
    let s = draw_small(state);
    let best = best_of(s);
    let rank = best.rank;
    let seat = idle_seat(s);
    if seat != 0 {
        return judge_sheets(judge_idle(tally, s, seat), s, rank);
    }
    judge_sheets(judge_plan(tally, s, best), s, rank)
}
