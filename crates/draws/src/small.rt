// Random small books.
ghost use Rattle.std.specs.Prelude.{◌<◌, ◌≤◌};

use crate::{below, draw_if, draw_row, draw_seats, draw_weights, up_to};
use oracle::rules::total;
use oracle::{BUILT_IN, Small};

pub fn draw_cells(state: &mut u32, seats: usize, windows: usize, most: u16) -> [u16; 12] {
    let mut cells = [0u16; 12];
    for k in 0..12usize {
        cells[k] = draw_if(state, (k / 3 < seats) & (k % 3 < windows), most);
    }
    cells
}

// The caps, where every seat has one: in a row of zeros one of them is 1.
fn with_caps(state: &mut u32, mut caps: [u16; 12], seats: usize, windows: usize) -> [u16; 12]
    requires { (seats ≤ 4) × ((0 < windows) × (windows ≤ 3)) }
{
    for i in 0..seats {
        if total(&caps, i) == 0 {
            let w = below(state, windows as u32) as usize;
            caps[3 * i + w] = 1;
        }
    }
    caps
}

// The caps, where a seat drawn at random has none.
fn draw_idle(state: &mut u32, mut caps: [u16; 12], seats: usize) -> [u16; 12]
    requires { (0 < seats) × (seats ≤ 4) }
{
    let i = below(state, seats as u32) as usize;
    caps[3 * i] = 0;
    caps[3 * i + 1] = 0;
    caps[3 * i + 2] = 0;
    caps
}

// The caps of a book. How many books have an idle seat is not left to chance: in an eighth a seat is made idle, in another one two, which
// may be the same, and in all others every seat has a cap.
fn draw_caps(state: &mut u32, seats: usize, windows: usize) -> [u16; 12]
    requires { ((0 < seats) × (seats ≤ 4)) × ((0 < windows) × (windows ≤ 3)) }
{
    let most = 1 + up_to(state, 2);
    let drawn = draw_cells(state, seats, windows, most);
    let caps = with_caps(state, drawn, seats, windows);
    let way = below(state, 8);
    if 1 < way {
        return caps;
    }
    let idle = draw_idle(state, caps, seats);
    if way == 0 {
        return idle;
    }
    draw_idle(state, idle, seats)
}

// Balances: small ones, so that they and the credits of a sheet decide together; the same close to the largest that there can be; any;
// small ones but for one seat with any; all 0. Where there are none, the numbers are 0 too.
fn draw_balances(state: &mut u32, seats: usize, there: bool) -> [u16; 32]
    requires { (0 < seats) × (seats ≤ 4) }
{
    if !there {
        return [0u16; 32];
    }
    let way = below(state, 8);
    match way {
        0 => draw_seats(state, seats, 49996, 4),
        1 => draw_seats(state, seats, 0, 50000),
        2 => {
            let mut balances = draw_seats(state, seats, 0, 4);
            let i = below(state, seats as u32) as usize;
            balances[i] = up_to(state, 50000);
            balances
        }
        3 => [0u16; 32],
        _ => draw_seats(state, seats, 0, 4),
    }
}

// Often of a few classes only, so that there are ties. Any seat is the first, seat 1 too, or none is named. A third has no balances, and a
// third has weights of its own. A quarter has an idle seat.
pub fn draw_small(state: &mut u32) -> Small {
    let seats = 1 + below(state, 4) as usize;
    let windows = 1 + below(state, 3) as usize;
    let few = up_to(state, 7);
    let classes = draw_seats(state, 4, 1, few);
    let supplies = draw_row(state, windows, 4, false);
    let caps = draw_caps(state, seats, windows);
    let first = up_to(state, seats as u16);
    let has_balances = below(state, 3) != 0;
    let balances = draw_balances(state, seats, has_balances);
    let has_weights = below(state, 3) == 0;
    let weights = draw_weights(state, has_weights);
    Small {
        seats,
        windows,
        classes,
        supplies,
        caps,
        first,
        has_balances,
        balances,
        has_weights,
        weights,
    }
}

// The same book without its balances.
pub fn without_balances(mut s: Small) -> Small {
    s.has_balances = false;
    s.balances = [0u16; 32];
    s
}

// The same book without weights of its own.
pub fn without_weights(mut s: Small) -> Small {
    s.has_weights = false;
    s.weights = [0u16; 8];
    s
}

// The same book, where paper 01's weights are its own.
fn with_built_in(mut s: Small) -> Small {
    s.has_weights = true;
    s.weights = BUILT_IN;
    s
}

// The same book, but for class 8, which has the highest weight that there can be.
fn with_highest(s: Small) -> Small {
    let mut other = if s.has_weights { s } else { with_built_in(s) };
    other.weights[7] = 1000;
    other
}

// Mostly the same book again, on a day when seat 1 is named as the first, or none is. In some of these it has no balances, or one of them
// is 0 or 1; or it has no weights of its own, or paper 01's, or another one for class 8.
pub fn draw_other(state: &mut u32, mut s: Small) -> Small {
    if below(state, 8) == 0 {
        return draw_small(state);
    }
    s.first = up_to(state, 1);
    let way = below(state, 8);
    match way {
        0 => without_balances(s),
        1 => {
            let i = below(state, 4) as usize;
            s.has_balances = true;
            s.balances[i] = up_to(state, 1);
            s
        }
        2 => without_weights(s),
        3 => with_built_in(s),
        4 => with_highest(s),
        _ => s,
    }
}
