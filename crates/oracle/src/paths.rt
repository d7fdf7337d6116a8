// Exchange paths (paper 01: chains), played move by move.
use crate::rules::cell;

// The cells after the moves so far, the seat that gave last, and whether every move was possible and went on where the last one ended.
#[derive(Clone, Copy)]
pub struct Played {
    pub cells: [u16; 12],
    pub last: u8,
    pub right: bool,
}

// A move as the buffer has it, three bytes.
#[derive(Clone, Copy)]
struct Move {
    window: u8,
    giver: u8,
    taker: u8,
}

// Where the cell of a seat and a window lies, both counted from 1; 12 where there is none.
fn place(seat: u8, window: u8) -> usize {
    if (seat < 1) | (4 < seat) | (window < 1) | (3 < window) {
        return 12;
    }
    std::num::wrapping_sub_usize(3 * (seat as usize) + window as usize, 4)
}

// Whether a move from one cell to another is possible. A cell that is not there has no credit and no cap.
fn possible(cells: &[u16; 12], caps: &[u16; 12], from: usize, to: usize) -> bool {
    (from != to) & (0 < cell(cells, from)) & (cell(cells, to) < cell(caps, to))
}

// The cells with so much added to one of them; 65535 takes one away.
fn with_more(mut cells: [u16; 12], k: usize, x: u16) -> [u16; 12] {
    if k < 12 {
        cells[k] = std::num::wrapping_add_u16(cells[k], x);
    }
    cells
}

// One move more. It has to be possible on the sheet as handed in and now.
fn step(p: Played, sheet: &[u16; 12], caps: &[u16; 12], m: Move) -> Played {
    let from = place(m.giver, m.window);
    let to = place(m.taker, m.window);
    let cells = p.cells;
    let follows = (p.last == 0) | (p.last == m.taker);
    let right = possible(sheet, caps, from, to) & possible(&cells, caps, from, to);
    let after = with_more(with_more(cells, from, 65535), to, 1);
    Played {
        cells: after,
        last: m.giver,
        right: p.right & follows & right,
    }
}

// A byte; 0 where there is none.
pub fn byte(bytes: &[u8], at: usize) -> u8 {
    if at < bytes.len() { bytes[at] } else { 0 }
}

// The moves of a path, from the front of the buffer. No path has more than 31.
pub fn play(sheet: [u16; 12], caps: &[u16; 12], moves: &[u8], count: usize) -> Played {
    let mut p = Played {
        cells: sheet,
        last: 0,
        right: count < 32,
    };
    if 31 < count {
        return p;
    }
    for k in 0..count {
        let m = Move {
            window: byte(moves, 3 * k),
            giver: byte(moves, 3 * k + 1),
            taker: byte(moves, 3 * k + 2),
        };
        p = step(p, &sheet, caps, m);
    }
    p
}
