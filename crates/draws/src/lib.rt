// Random numbers, the same in every run: the next is 1,664,525 times the one before plus 1,013,904,223, remainder on 2^32.
#![tactic(auto)]

ghost use Rattle.std.specs.Prelude.{◌+◌, ◌<◌, ◌≤◌};

use dayfile::{Day, Written};
use oracle::memory::{book_of, grid_of};
use oracle::numbers::times;
use oracle::{BUILT_IN, Small};

pub mod damage;
pub mod full;
pub mod small;
pub mod wanted;

// More bytes than any file of a small book has, damaged or not.
pub const SMALL_ROOM: usize = 160;

// The product's remainder on 2^32.
fn multiply(a: u32, b: u32) -> u32 {
    (times(a, b) % 4294967296) as u32
}

// A number below n, of the upper half of the next one: the lower bits come round too early.
pub fn below(state: &mut u32, n: u32) -> u32
    requires { 0 < n }
    ensures { result < n }
{
    let next = std::num::wrapping_add_u32(multiply(*state, 1664525), 1013904223);
    *state = next;
    next / 65536 % n
}

// A two-byte number that is at most `most`.
pub fn up_to(state: &mut u32, most: u16) -> u16
    ensures { result ≤ most }
{
    below(state, most as u32 + 1) as u16
}

// An offset below n; 0 where n is 0 or no two-byte number.
pub fn offset(state: &mut u32, n: usize) -> usize
    ensures { result ≤ n }
{
    if n == 0 || 65535 < n {
        return 0;
    }
    below(state, n as u32) as usize
}

// The numbers of n seats, classes or balances: each at least `low` and at most so many more.
fn draw_seats(state: &mut u32, n: usize, low: u16, more: u16) -> [u16; 32]
    requires { (n ≤ 32) × (low + more ≤ 65535) }
{
    let mut numbers = [0u16; 32];
    for i in 0..n {
        numbers[i] = low + up_to(state, more);
    }
    numbers
}

// Weights that rise: the first is above `low`, each other one above the one before, by 1 and at most so many more.
fn draw_table(state: &mut u32, low: u16, more: u16) -> [u16; 8]
    requires { (low ≤ 992) × (more ≤ 124) }
{
    let mut weights = [0u16; 8];
    let mut last = low;
    for k in 0..8usize {
        last += 1 + up_to(state, more);
        weights[k] = last;
    }
    weights
}

// A book's own weights: the lowest and the highest that there can be, paper 01's, any; or such that they and the credits of a sheet decide
// together: low ones that rise by little, and others that are nearly equal. Where there are none, the numbers are 0.
fn draw_weights(state: &mut u32, there: bool) -> [u16; 8] {
    if !there {
        return [0u16; 8];
    }
    let way = below(state, 8);
    match way {
        0 => draw_table(state, 0, 0),
        1 => draw_table(state, 992, 0),
        2 => BUILT_IN,
        3 => draw_table(state, 0, 124),
        4 | 5 => draw_table(state, 0, 4),
        _ => {
            let low = up_to(state, 960);
            draw_table(state, low, 4)
        }
    }
}

// A number that is at most `most`, or 0 with no draw.
pub fn draw_if(state: &mut u32, there: bool, most: u16) -> u16 {
    if there { up_to(state, most) } else { 0 }
}

// A number that is at most `most`; with gaps 0 in a third of the cases.
fn draw_cap(state: &mut u32, most: u16, gaps: bool) -> u16 {
    if !gaps {
        return up_to(state, most);
    }
    let there = below(state, 3) != 0;
    draw_if(state, there, most)
}

// The numbers of n windows.
fn draw_row(state: &mut u32, n: usize, most: u16, gaps: bool) -> [u16; 24]
    requires { n ≤ 24 }
{
    let mut row = [0u16; 24];
    for w in 0..n {
        row[w] = draw_cap(state, most, gaps);
    }
    row
}

// The length of a day's file, at the front of a buffer; 0 where the writer refuses.
pub fn put_day(file: &mut [u8], day: Day) -> usize {
    match writer::write(file, day) {
        Written::Whole { length } => length,
        Written::Refused { number: _, at: _ } => 0,
    }
}

// The same of a small book, with a sheet or without.
pub fn put_small(file: &mut [u8], s: Small, there: bool, cells: [u16; 12]) -> usize {
    let caps = s.caps;
    put_day(
        file,
        Day::new(book_of(s), grid_of(caps), there, grid_of(cells)),
    )
}
