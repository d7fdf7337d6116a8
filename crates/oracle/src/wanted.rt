// Wanted totals (paper 02): the sheets that give them, and the groups of seats that want more than they can get. All are tried.
//
// A group is a number with a bit for each seat, the lowest for seat 1. A seat that is not in the book wants nothing.
ghost use Rattle.std.specs.Prelude.{◌<◌, ◌≤◌};

use crate::numbers::long;
use crate::paths::byte;
use crate::rules::{cell, feasible, supply, total};
use crate::{SHEETS, Small, next_sheet};

// A seat's want: four bytes, low byte first; 0 where the row ends before it.
fn want_in(row: &[u8], seat: usize) -> u32
    requires { seat < 4 }
{
    let at = 4 * seat;
    byte(row, at) as u32
        + 256 * byte(row, at + 1) as u32
        + 65536 * byte(row, at + 2) as u32
        + 16777216 * byte(row, at + 3) as u32
}

pub fn wants_in(row: &[u8]) -> [u32; 4] {
    [
        want_in(row, 0),
        want_in(row, 1),
        want_in(row, 2),
        want_in(row, 3),
    ]
}

// 1 for a want that is not 0.
fn one_if(want: u32) -> usize
    ensures { result ≤ 1 }
{
    if want == 0 { 0 } else { 1 }
}

// How many seats want credits.
pub fn wanting(wants: [u32; 4]) -> usize {
    one_if(wants[0]) + one_if(wants[1]) + one_if(wants[2]) + one_if(wants[3])
}

// Whether a want needs more than two bytes.
pub fn is_large(wants: [u32; 4]) -> bool {
    (65535 < wants[0]) | (65535 < wants[1]) | (65535 < wants[2]) | (65535 < wants[3])
}

// Whether a sheet is lawful, with just these totals.
pub fn gives(s: Small, wants: [u32; 4], cells: &[u16; 12]) -> bool {
    let just = (total(cells, 0) == wants[0])
        & (total(cells, 1) == wants[1])
        & (total(cells, 2) == wants[2])
        & (total(cells, 3) == wants[3]);
    if just {
        return feasible(s, cells);
    }
    false
}

// Whether there is such a sheet.
fn some_sheet(s: Small, wants: [u32; 4]) -> bool {
    let caps = s.caps;
    let mut cells = [0u16; 12];
    for _ in 0..SHEETS {
        if gives(s, wants, &cells) {
            return true;
        }
        if !next_sheet(&mut cells, &caps) {
            return false;
        }
    }
    false
}

// How many seats a group has.
pub fn size(group: u32) -> u32 {
    u32::count_ones(group)
}

// A number of a seat, 0 where the seat is not in the group.
fn of_member(group: u32, seat: usize, x: u32) -> u32
    requires { seat < 4 }
    ensures { result ≤ x }
{
    if (group >> seat) % 2 == 1 { x } else { 0 }
}

fn lesser(a: u32, b: u32) -> u32
    ensures { result ≤ a }
{
    if a < b { a } else { b }
}

// What a group can get in a window: the lesser of the supply and the group's caps added together.
fn window_can(s: Small, group: u32, window: usize) -> u32
    requires { window < 3 }
    ensures { result ≤ 65535 }
{
    let caps = s.caps;
    let asked = of_member(group, 0, cell(&caps, window))
        + of_member(group, 1, cell(&caps, 3 + window))
        + of_member(group, 2, cell(&caps, 6 + window))
        + of_member(group, 3, cell(&caps, 9 + window));
    lesser(supply(s, window), asked)
}

// What a group can get (document 000: cap).
fn can_get(s: Small, group: u32) -> u32 {
    window_can(s, group, 0) + window_can(s, group, 1) + window_can(s, group, 2)
}

// The most that a seat can get, where the others get nothing.
pub fn alone(s: Small, seat: usize) -> u32
    requires { seat < 4 }
{
    can_get(s, 1u32 << seat)
}

// The wants of a group added together.
fn together(wants: [u32; 4], group: u32) -> u64 {
    long(of_member(group, 0, wants[0]))
        + long(of_member(group, 1, wants[1]))
        + long(of_member(group, 2, wants[2]))
        + long(of_member(group, 3, wants[3]))
}

// Whether a group has a seat, and none that is not in the book.
fn of_book(s: Small, group: u32) -> bool {
    let seats = s.seats;
    let end = match seats {
        1 => 2,
        2 => 4,
        3 => 8,
        _ => 16,
    };
    (0 < group) & (group < end)
}

// Whether a number is a group of the book's seats that wants more than it can get.
pub fn overasks(s: Small, wants: [u32; 4], group: u32) -> bool {
    of_book(s, group) & (long(can_get(s, group)) < together(wants, group))
}

// Whether there is such a group.
fn some_group(s: Small, wants: [u32; 4]) -> bool {
    for group in 1..16u32 {
        if overasks(s, wants, group) {
            return true;
        }
    }
    false
}

// Whether there is such a sheet and no such group, or the other way round.
pub fn is_kind(s: Small, wants: [u32; 4], sheet: bool) -> bool {
    (some_sheet(s, wants) == sheet) & (some_group(s, wants) != sheet)
}

// Whether one seat is such a group.
pub fn some_seat(s: Small, wants: [u32; 4]) -> bool {
    overasks(s, wants, 1) | overasks(s, wants, 2) | overasks(s, wants, 4) | overasks(s, wants, 8)
}
