// Random books of 32 seats and 24 windows.
use crate::{below, draw_cap, draw_row, draw_seats, draw_weights};
use dayfile::{Book, Day};
use oracle::idle::all_zero;
use sheet::Grid;

// The caps of a seat, 0 in a third of the windows. Where they are 0 in all of them, one is 1: no seat is idle by chance.
fn draw_seat(state: &mut u32, most: u16) -> [u16; 24] {
    let mut row = draw_row(state, 24, most, true);
    if all_zero(row) {
        let w = below(state, 24) as usize;
        row[w] = 1;
    }
    row
}

// For each seat its caps.
fn draw_caps(state: &mut u32, most: u16) -> Grid {
    let mut caps = [[0u16; 24]; 32];
    for i in 0..32usize {
        let row = draw_seat(state, most);
        caps[i] = row;
    }
    caps
}

// The caps, where a seat drawn at random has none.
fn draw_idle(state: &mut u32, mut caps: Grid) -> Grid {
    let i = below(state, 32) as usize;
    caps[i] = [0u16; 24];
    caps
}

// The caps, where in a sixteenth of the cases one seat has none, and in another one two have none.
fn draw_some_idle(state: &mut u32, caps: Grid) -> Grid {
    let way = below(state, 16);
    if 1 < way {
        return caps;
    }
    let idle = draw_idle(state, caps);
    if way == 0 {
        return idle;
    }
    draw_idle(state, idle)
}

// How large the caps of a book can be.
fn draw_most(state: &mut u32) -> u16 {
    let size = below(state, 4);
    match size {
        0 => 1,
        1 => 9,
        2 => 200,
        _ => 4095,
    }
}

// The balances: any, all 0, or about what a seat gets in a book of such supplies. Where there are none, the numbers are 0 too.
fn draw_balances(state: &mut u32, supply: u16, there: bool) -> [u16; 32] {
    if !there {
        return [0u16; 32];
    }
    let size = below(state, 4);
    match size {
        0 => draw_seats(state, 32, 0, 50000),
        1 => [0u16; 32],
        _ => draw_seats(state, 32, 0, supply),
    }
}

// The book, but for its caps, with supplies that are about what such caps ask for, or less. In a third of the books no first seat is named,
// a third has no balances, and a third has weights of its own.
fn draw_book(state: &mut u32, most: u16) -> Book {
    let classes = draw_seats(state, 32, 1, 7);
    let supply = if most < 256 { 16 * most } else { 4095 };
    let supplies = draw_row(state, 24, supply, false);
    let first = draw_cap(state, 32, true);
    let has_balances = below(state, 3) != 0;
    let balances = draw_balances(state, supply, has_balances);
    let has_weights = below(state, 3) == 0;
    let weights = draw_weights(state, has_weights);
    Book {
        seats: 32,
        windows: 24,
        classes,
        supplies,
        has_first: first != 0,
        first,
        has_balances,
        balances,
        has_weights,
        weights,
    }
}

// A book with no sheet. An eighth has an idle seat.
pub fn draw_full(state: &mut u32) -> Day {
    let most = draw_most(state);
    let drawn = draw_caps(state, most);
    let caps = draw_some_idle(state, drawn);
    Day::new(draw_book(state, most), caps, false, caps)
}

// The same book with a sheet of zeros.
pub fn with_zeros(day: Day) -> Day {
    Day::new(day.book, day.caps.to_grid(), true, [[0u16; 24]; 32])
}
