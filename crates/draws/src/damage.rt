// Files that are damaged, or made up of any small bodies.
ghost use Rattle.std.specs.Prelude.{◌<◌, ◌≤◌};

use crate::small::{draw_cells, draw_small};
use crate::{SMALL_ROOM, below, draw_weights, offset, put_small, up_to};
use dayfile::{Book, Day};
use oracle::Small;
use oracle::memory::{book_of, grid_of};
use oracle::paths::byte;
use sheet::Grid;

// A byte, if there is one at that offset.
fn set(file: &mut [u8], at: usize, value: u8) {
    if at < file.len() {
        file[at] = value;
    }
}

pub fn lesser(a: u16, b: u16) -> u16
    ensures { result ≤ b }
{
    if a < b { a } else { b }
}

// Cells that are above their caps brought down to them.
fn within(mut cells: [u16; 12], caps: [u16; 12]) -> [u16; 12] {
    for k in 0..12usize {
        cells[k] = lesser(cells[k], caps[k]);
    }
    cells
}

// The cells of a sheet, mostly within the caps.
fn draw_sheet(state: &mut u32, s: Small) -> [u16; 12] {
    let most = up_to(state, 3);
    let cells = draw_cells(state, s.seats, s.windows, most);
    if below(state, 4) == 0 {
        return cells;
    }
    let caps = s.caps;
    within(cells, caps)
}

// The file of a small book, mostly with a sheet.
pub fn draw_written(state: &mut u32, file: &mut [u8], s: Small) -> usize {
    let there = below(state, 4) != 0;
    let cells = draw_sheet(state, s);
    put_small(file, s, there, cells)
}

// An entry of the contents: kind, start and length of a body. The high bytes are 0 already.
fn put_entry(file: &mut [u8], at: usize, kind: u8, start: u8, size: u8)
    requires { at < 100 }
{
    set(file, at, kind);
    set(file, at + 2, start);
    set(file, at + 4, size);
}

// The kind of an entry: after kind 3 any of 4 to 8, so that some do not rise and some are unknown.
fn draw_kind(state: &mut u32, e: u8) -> u8
    requires { e < 7 }
{
    if e < 3 {
        e + 1
    } else {
        4 + below(state, 5) as u8
    }
}

// Contents whose starts are right, with bodies of any length below 6; the offset where the last body ends.
fn draw_contents(state: &mut u32, file: &mut [u8], entries: u8) -> u8
    requires { entries ≤ 7 }
    ensures { result ≤ 79 }
{
    set(file, 0, entries);
    let mut end = 2 + 6 * entries;
    for e in 0..entries {
        let kind = draw_kind(state, e);
        let size = below(state, 6) as u8;
        put_entry(file, 2 + 6 * e as usize, kind, end, size);
        end += size;
    }
    end
}

// Bodies of small bytes.
fn draw_bodies(state: &mut u32, file: &mut [u8], from: usize, to: usize) {
    for at in from..to {
        set(file, at, below(state, 4) as u8);
    }
}

// A file made up of contents and any small bodies.
fn draw_made(state: &mut u32, file: &mut [u8]) -> usize {
    let entries = 3 + below(state, 5) as u8;
    let end = draw_contents(state, file, entries) as usize;
    draw_bodies(state, file, 2 + 6 * entries as usize, end);
    end
}

// One byte of a file, from an offset on, gets a value below n.
fn change(state: &mut u32, file: &mut [u8], from: usize, length: usize, n: u32)
    requires { (0 < n) × (n ≤ 256) }
{
    if from < length {
        let at = from + offset(state, length - from);
        set(file, at, below(state, n) as u8);
    }
}

fn longer(length: usize) -> usize {
    if length < SMALL_ROOM {
        length + 1
    } else {
        length
    }
}

// The last body gets any length below 20, and the file ends where it does: else line 6 would hide what its length means. The contents end
// with that length, two bytes of which the high one is 0.
fn resize(state: &mut u32, file: &mut [u8], length: usize) -> usize {
    let at = 6 * byte(file, 0) as usize;
    let size = offset(state, 20);
    let ahead = std::num::wrapping_sub_usize(length, byte(file, at) as usize);
    set(file, at, size as u8);
    std::num::wrapping_add_usize(ahead, size)
}

// The two bytes of a field.
pub fn set_field(file: &mut [u8], at: usize, x: u16) {
    set(file, at, (x % 256) as u8);
    set(file, std::num::wrapping_add_usize(at, 1), (x / 256) as u8);
}

// The last field gets a number about that of the largest balance.
fn enlarge(state: &mut u32, file: &mut [u8], length: usize) {
    let x = 49998 + up_to(state, 4);
    set_field(file, std::num::wrapping_sub_usize(length, 2), x);
}

// A weight that is mostly wrong in its place of a table: one of the lowest, 0 too, or about the highest.
fn draw_odd_weight(state: &mut u32) -> u16 {
    let x = up_to(state, 3);
    if below(state, 2) == 0 {
        return x;
    }
    998 + x
}

// One of the last eight fields, the weights where a file has its own, gets another number.
fn misweigh(state: &mut u32, file: &mut [u8], length: usize) {
    let back = 2 + 2 * offset(state, 8);
    let x = draw_odd_weight(state);
    set_field(file, std::num::wrapping_sub_usize(length, back), x);
}

// A file that is left as it is, cut, longer by a byte, or has a byte changed: anywhere, in the contents, in the bodies, or in the last
// field; or its last field is large, or one of the last eight is another number, or its last body has another length. Its length.
fn damage(state: &mut u32, file: &mut [u8], length: usize) -> usize {
    let way = below(state, 10);
    match way {
        0 => length,
        1 => offset(state, length),
        2 => longer(length),
        3 => {
            change(state, file, 0, length, 256);
            length
        }
        4 => {
            change(state, file, 0, 44, 9);
            length
        }
        5 => {
            change(state, file, 20, length, 256);
            length
        }
        6 => {
            change(
                state,
                file,
                std::num::wrapping_sub_usize(length, 2),
                length,
                6,
            );
            length
        }
        7 => {
            enlarge(state, file, length);
            length
        }
        8 => {
            misweigh(state, file, length);
            length
        }
        _ => resize(state, file, length),
    }
}

// A damaged file at the front of a buffer whose bytes are 0, and its length.
pub fn draw_file(state: &mut u32, file: &mut [u8]) -> usize {
    if below(state, 4) == 0 {
        return draw_made(state, file);
    }
    let s = draw_small(state);
    let length = draw_written(state, file, s);
    damage(state, file, length)
}

// A hand-in of a book: mostly as it was written, or damaged, or with a small number changed behind the contents.
pub fn draw_hand_in(state: &mut u32, file: &mut [u8], s: Small) -> usize {
    let length = draw_written(state, file, s);
    let way = below(state, 8);
    match way {
        0 => damage(state, file, length),
        1 | 2 => {
            change(state, file, 2 + 6 * byte(file, 0) as usize, length, 6);
            length
        }
        _ => length,
    }
}

// A book of a small one's numbers, in which one of them may be out of its range.
fn damage_book(state: &mut u32, s: Small) -> Book {
    let mut book = book_of(s);
    let way = below(state, 8);
    match way {
        0 => {
            book.seats = offset(state, 40);
        }
        1 => {
            book.windows = offset(state, 30);
        }
        2 => {
            let i = below(state, 4) as usize;
            book.classes[i] = up_to(state, 9);
        }
        3 => {
            let w = below(state, 3) as usize;
            book.supplies[w] = 4094 + up_to(state, 3);
        }
        4 => {
            book.has_first = below(state, 4) != 0;
            book.first = up_to(state, 5) + 256 * up_to(state, 1);
        }
        5 => {
            let i = below(state, 4) as usize;
            book.has_balances = below(state, 4) != 0;
            book.balances[i] = 49999 + up_to(state, 3);
        }
        6 => {
            let k = below(state, 8) as usize;
            book.has_weights = below(state, 4) != 0;
            book.weights = draw_weights(state, true);
            book.weights[k] = draw_odd_weight(state);
        }
        _ => {}
    }
    book
}

// Caps of which one may be out of its range.
fn damage_caps(state: &mut u32, s: Small) -> Grid {
    let mut cells = s.caps;
    if below(state, 4) == 0 {
        let k = below(state, 12) as usize;
        cells[k] = 4094 + up_to(state, 3);
    }
    grid_of(cells)
}

// A book and a sheet in memory, which a writer may have to refuse.
pub fn draw_day(state: &mut u32) -> Day {
    let s = draw_small(state);
    let book = damage_book(state, s);
    let caps = damage_caps(state, s);
    Day::new(book, caps, true, caps)
}
