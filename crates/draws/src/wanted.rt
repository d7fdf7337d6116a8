// Random rows of wanted totals, for small books.
ghost use Rattle.std.specs.Prelude.{◌≤◌};

use crate::damage::{lesser, set_field};
use crate::{below, offset, up_to};
use oracle::Small;
use oracle::rules::total;
use oracle::wanted::alone;

// More bytes than any row has, of the right length or not.
pub const ROW_ROOM: usize = 24;

// A number that is at most `most`, or just that.
fn draw_most(state: &mut u32, most: u16, just: bool) -> u16
    ensures { result ≤ most }
{
    if just {
        return most;
    }
    up_to(state, most)
}

// A lawful sheet: each cell is at most its cap and what the cells before it leave of the window's supply, or just as much.
fn draw_lawful(state: &mut u32, s: Small, just: bool) -> [u16; 12] {
    let caps = s.caps;
    let mut left = s.supplies;
    let mut cells = [0u16; 12];
    for k in 0..12usize {
        let w = k % 3;
        let before = left[w];
        let x = draw_most(state, lesser(caps[k], before), just);
        left[w] = before - x;
        cells[k] = x;
    }
    cells
}

// The totals of such a sheet.
fn draw_totals(state: &mut u32, s: Small) -> [u32; 4] {
    let just = below(state, 2) == 0;
    let cells = draw_lawful(state, s, just);
    [
        total(&cells, 0),
        total(&cells, 1),
        total(&cells, 2),
        total(&cells, 3),
    ]
}

// A want about a total or about the most that the seat can get alone, or one that is larger by higher bytes alone. One less than 0 is the
// largest want that there can be.
fn draw_want(state: &mut u32, total: u32, most: u32) -> u32 {
    let way = below(state, 8);
    match way {
        0 => 0,
        1 => std::num::wrapping_add_u32(total, 1),
        2 => std::num::wrapping_sub_u32(total, 1),
        3 => most,
        4 => std::num::wrapping_add_u32(most, 1),
        5 => std::num::wrapping_add_u32(total, 65536),
        6 => std::num::wrapping_add_u32(total, 16777216),
        _ => 4294967295,
    }
}

// The totals of a lawful sheet, but for one seat.
fn draw_odd(state: &mut u32, s: Small) -> [u32; 4] {
    let mut wants = draw_totals(state, s);
    let i = below(state, 4) as usize;
    let before = wants[i];
    wants[i] = draw_want(state, before, alone(s, i));
    wants
}

// Any small numbers.
fn draw_any(state: &mut u32) -> [u32; 4] {
    let a = below(state, 6);
    let b = below(state, 6);
    let c = below(state, 6);
    let d = below(state, 6);
    [a, b, c, d]
}

// What each of four seats wants: nothing; any small number; the most that it can get alone; the totals of a lawful sheet; and these, but
// for one seat.
fn draw_wants(state: &mut u32, s: Small) -> [u32; 4] {
    let way = below(state, 16);
    match way {
        0 => [0u32; 4],
        1 | 2 => draw_any(state),
        3 | 4 => [alone(s, 0), alone(s, 1), alone(s, 2), alone(s, 3)],
        5 | 6 | 7 | 8 => draw_totals(state, s),
        _ => draw_odd(state, s),
    }
}

// Four bytes, low byte first.
fn put_want(row: &mut [u8], at: usize, x: u32) {
    set_field(row, at, (x % 65536) as u16);
    set_field(row, std::num::wrapping_add_usize(at, 2), (x / 65536) as u16);
}

// The wants of four seats. A book with fewer has the front of this row.
fn put_wants(row: &mut [u8], wants: [u32; 4]) {
    put_want(row, 0, wants[0]);
    put_want(row, 4, wants[1]);
    put_want(row, 8, wants[2]);
    put_want(row, 12, wants[3]);
}

// A length about the right one: mostly that, or one less, one more, four more, or any that is small.
pub fn draw_length(state: &mut u32, right: usize) -> usize {
    let way = below(state, 32);
    match way {
        0 => offset(state, ROW_ROOM),
        1 => std::num::wrapping_sub_usize(right, 1),
        2 => std::num::wrapping_add_usize(right, 1),
        3 => std::num::wrapping_add_usize(right, 4),
        _ => right,
    }
}

// A row of wants at the front of a buffer, and its length, where the right one is given.
pub fn draw_wanted(state: &mut u32, row: &mut [u8], s: Small, right: usize) -> usize {
    put_wants(row, draw_wants(state, s));
    draw_length(state, right)
}
