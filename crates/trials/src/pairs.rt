// Two hand-ins of small books: which is the better one, held against the marker's refusals, the files' bytes and the oracle's lists.
ghost use Rattle.std.specs.Prelude.{◌<◌};

use crate::calls::{mark, mark_of};
use crate::tally::{Tally, count, count_if};
use better::{body_span, choose};
use choice::BetterResult;
use draws::damage::draw_hand_in;
use draws::small::{draw_other, draw_small};
use draws::{SMALL_ROOM, put_small};
use lawful::MOVES_ROOM;
use oracle::idle::idle_seat;
use oracle::memory::{sheet_of, small_of};
use oracle::paths::{byte, play};
use oracle::rules::{above, rank_of, weight};
use oracle::{BUILT_IN, Small};
use say::{front, numbers};

// The bodies between the contents and the sheet: classes, supplies and caps. No start is above 255.
fn book_in(file: &[u8]) -> &[u8] {
    let start = byte(file, 4) as usize;
    let end = byte(file, 22) as usize;
    numbers::bytes(file, start / 2, std::num::wrapping_sub_usize(end, start))
}

// Whether these bodies are the same, and so are the numbers of seats and windows, by the lengths of the first two.
fn same_bodies(first: &[u8], second: &[u8]) -> bool {
    (byte(first, 6) == byte(second, 6))
        & (byte(first, 12) == byte(second, 12))
        & check::same(book_in(first), book_in(second))
}

// The offset of a kind's entry; 0 where there is none. No file has more than 7.
pub fn entry_in(file: &[u8], kind: u8) -> usize
    ensures { result < 44 }
{
    for e in 0..7u8 {
        let at = 2 + 6 * e as usize;
        if (e < byte(file, 0)) & (byte(file, at) == kind) {
            return at;
        }
    }
    0
}

// The body of a kind, no byte where there is none.
fn body_in(file: &[u8], kind: u8) -> &[u8] {
    let at = entry_in(file, kind);
    let start = byte(file, at + 2) as usize;
    let length = if at == 0 { 0 } else { byte(file, at + 4) };
    numbers::bytes(file, start / 2, length as usize)
}

// A number in force, of those that can be missing: a seat's balance (kind 6), 0 where the file has none, or a class's weight (kind 7),
// paper 01's where the file has none.
fn in_force(file: &[u8], kind: u8, i: usize) -> u16
    requires { i < 8 }
{
    let body = body_in(file, kind);
    if (kind == 7) & (body.len() == 0) {
        return BUILT_IN[i];
    }
    numbers::at(body, i)
}

// Whether these numbers are the same, of 4 seats or of 8 classes: behind the last seat's balance they are 0.
fn same_in_force(first: &[u8], second: &[u8], kind: u8) -> bool {
    for i in 0..8usize {
        if in_force(first, kind, i) != in_force(second, kind, i) {
            return false;
        }
    }
    true
}

// Line 17 does not hold.
fn one_book(first: &[u8], second: &[u8]) -> bool {
    same_bodies(first, second) & same_in_force(first, second, 6) & same_in_force(first, second, 7)
}

// Whether one of two files has a body of a kind and the other has none.
fn in_one_only(first: &[u8], second: &[u8], kind: u8) -> bool {
    (entry_in(first, kind) == 0) != (entry_in(second, kind) == 0)
}

pub fn small_in(file: &[u8]) -> Small {
    let read = reader::read(file);
    small_of(read.day)
}

// Whether each seat has the same weight in both files.
fn same_weights(first: &[u8], second: &[u8]) -> bool {
    let a = small_in(first);
    let b = small_in(second);
    (weight(a, 0) == weight(b, 0))
        & (weight(a, 1) == weight(b, 1))
        & (weight(a, 2) == weight(b, 2))
        & (weight(a, 3) == weight(b, 3))
}

fn rank_in(file: &[u8]) -> [u64; 8] {
    let read = reader::read(file);
    let day = read.day;
    let cells = sheet_of(day);
    rank_of(small_of(day), &cells)
}

// An answer in numbers, with where the sheet of the chosen file lies: its entry is the fourth.
fn told(file: u32, number: u8, at: usize, chosen: &[u8]) -> BetterResult {
    BetterResult {
        refusal: number as u32,
        offset: at,
        file,
        start: byte(chosen, 22) as usize,
        length: byte(chosen, 24) as usize,
    }
}

// What must be answered.
fn wanted(first: &[u8], second: &[u8]) -> BetterResult {
    let a = mark_of(first);
    if a.mark == 0 {
        return told(1, a.refusal, a.offset, b"");
    }
    let b = mark_of(second);
    if b.mark == 0 {
        return told(2, b.refusal, b.offset, b"");
    }
    if !one_book(first, second) {
        return told(0, 17, 0, b"");
    }
    if above(rank_in(second), rank_in(first), 4) {
        return told(2, 0, 0, second);
    }
    told(1, 0, 0, first)
}

fn answered(first: &[u8], second: &[u8]) -> BetterResult {
    let choice = choose(first, second);
    BetterResult::of(choice, body_span(choice, first, second))
}

fn same_numbers(a: BetterResult, b: BetterResult) -> bool {
    (a.refusal == b.refusal)
        & (a.offset == b.offset)
        & (a.file == b.file)
        & (a.start == b.start)
        & (a.length == b.length)
}

// Whether the bytes of the chosen sheet are handed back, and none at a refusal.
fn rightly_handed<'a>(first: &'a [u8], second: &'a [u8], want: BetterResult) -> bool {
    let part = better::better(first, second);
    let place = want.start / 2;
    if want.file == 2 {
        return check::same(part, numbers::bytes(second, place, want.length));
    }
    check::same(part, numbers::bytes(first, place, want.length))
}

// Two files. They are counted by the file that is chosen or refused, or, for line 17, by neither.
fn judge_pair<'a>(tally: Tally, first: &'a [u8], second: &'a [u8]) -> Tally {
    let want = wanted(first, second);
    let right = same_numbers(answered(first, second), want) & rightly_handed(first, second, want);
    let column = want.file as usize % 3;
    count(tally, column, want.refusal as usize, right)
}

// The file after the marker's moves have been played, at the front of a buffer; its length.
fn put_played(file: &[u8], out: &mut [u8]) -> usize {
    let mut moves = [255u8; MOVES_ROOM];
    let m = mark(file, &mut moves);
    let read = reader::read(file);
    let day = read.day;
    let s = small_of(day);
    let caps = s.caps;
    let played = play(sheet_of(day), &caps, &moves, m.moves);
    let cells = played.cells;
    put_small(out, s, true, cells)
}

// Whether a seat of a file's book is idle.
fn has_idle(file: &[u8]) -> bool {
    idle_seat(small_in(file)) != 0
}

// What two files show of balances and weights, which can be missing, is counted as lines 2 to 6 of neither: one book, though one file has
// them and the other has none; and two books that differ in balances alone, in weights alone, and in weights alone that no seat has. One
// book that has an idle seat is counted as line 7.
fn count_missing(tally: Tally, first: &[u8], second: &[u8], refusal: u32) -> Tally {
    let chosen = refusal == 0;
    let seen = count_if(tally, chosen & has_idle(first), 0, 7);
    let seen = count_if(seen, chosen & in_one_only(first, second, 6), 0, 2);
    let seen = count_if(seen, chosen & in_one_only(first, second, 7), 0, 4);
    if (refusal != 17) | !same_bodies(first, second) {
        return seen;
    }
    let balances = same_in_force(first, second, 6);
    let weights = same_in_force(first, second, 7);
    let seen = count_if(seen, weights, 0, 3);
    let seen = count_if(seen, balances, 0, 5);
    count_if(seen, balances & same_weights(first, second), 0, 6)
}

// Two files in both orders. Equal lists, where the first of two sheets is chosen in either order, are counted as line 1 of neither.
fn judge_both<'a>(tally: Tally, first: &'a [u8], second: &'a [u8]) -> Tally {
    let seen = judge_pair(judge_pair(tally, first, second), second, first);
    let a = answered(first, second);
    let b = answered(second, first);
    let equal = (a.refusal == 0) & (a.file == b.file) & !check::same(first, second);
    count_missing(count_if(seen, equal, 0, 1), first, second, a.refusal)
}

// A hand-in against another, mostly of the same book, and against itself after the marker's moves.
pub fn judge(state: &mut u32, tally: Tally) -> Tally {
    let s = draw_small(state);
    let other = draw_other(state, s);
    let mut first = [0u8; SMALL_ROOM];
    let n = draw_hand_in(state, &mut first, s);
    let mut second = [0u8; SMALL_ROOM];
    let m = draw_hand_in(state, &mut second, other);
    let seen = judge_both(tally, front(&first, n), front(&second, m));
    let mut played = [0u8; SMALL_ROOM];
    let k = put_played(front(&first, n), &mut played);
    judge_both(seen, front(&first, n), front(&played, k))
}
