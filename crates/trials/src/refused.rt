// Damaged files and books through all calls: their refusals agree, and none changes a byte.
use crate::calls::{Call, gives, read_check, see, see_file};
use crate::pairs::{entry_in, small_in};
use crate::tally::{Tally, count};
use dayfile::{Day, LONGEST_FILE};
use draws::damage::{draw_day, draw_file};
use draws::{SMALL_ROOM, below};
use lawful::MOVES_ROOM;
use listing::LISTING_MAX;
use oracle::idle::{class_at, idle_seat};
use oracle::memory::{sheet_of, small_of};
use oracle::paths::byte;
use oracle::rules::feasible;
use say::{Reply, front, refusal, taken};

fn same_reply(a: Reply, b: Reply) -> bool {
    (a.taken == b.taken) & (a.number == b.number) & (a.at == b.at) & (a.length == b.length)
}

// Whether the sheet of a file that the reader takes is feasible.
fn feasible_in(file: &[u8]) -> bool {
    let read = reader::read(file);
    let day = read.day;
    let cells = sheet_of(day);
    feasible(small_of(day), &cells)
}

// Whether an answer is the marker's with a buffer of so many bytes, where the reader's answer is known: the same refusal; 13 without a
// sheet; 14 or 15 where it is not feasible; 16 only then; or a mark. Line 22 is not among them: an idle seat changes nothing.
fn is_marked(file: &[u8], first: Reply, room: usize, r: Reply) -> bool {
    if !first.taken {
        return same_reply(r, first);
    }
    if entry_in(file, 4) == 0 {
        return same_reply(r, refusal(13, 0));
    }
    if !feasible_in(file) {
        return (r.number == 14) | (r.number == 15);
    }
    if room < MOVES_ROOM {
        return same_reply(r, refusal(16, MOVES_ROOM));
    }
    r.taken
}

// The length of the planned file, of a file that the reader takes: its own; without a sheet that, one more entry, and a body as long as
// that of the caps.
fn planned_length(file: &[u8]) -> usize {
    if entry_in(file, 4) != 0 {
        return file.len();
    }
    std::num::wrapping_add_usize(file.len(), 6 + byte(file, 18) as usize)
}

// What the planner must answer with a buffer of so many bytes, where the reader's answer is known: the same refusal; 22, exactly where a
// seat of the book that was read is idle; 16 only then; or all is written.
fn plan_due(file: &[u8], first: Reply, room: usize) -> Reply {
    if !first.taken {
        return first;
    }
    let seat = idle_seat(small_in(file));
    if seat != 0 {
        return refusal(22, class_at(byte(file, 0), seat));
    }
    let length = planned_length(file);
    if room < length {
        return refusal(16, length);
    }
    taken(length)
}

// The marker's answer with a buffer of so many bytes, where the reader's is known.
fn judge_mark(tally: Tally, file: &[u8], first: Reply, room: usize) -> Tally {
    let m = see_file(Call::Mark, file, room);
    let r = m.reply;
    let right = m.kept & is_marked(file, first, room, r);
    count(tally, 0, r.number as usize, right)
}

// The planner's answer likewise: the one that is due, as it was forecast, and what it writes gets mark 4.
fn judge_plan(tally: Tally, file: &[u8], first: Reply, room: usize) -> Tally {
    let p = see_file(Call::Plan, file, room);
    let r = p.reply;
    let due = plan_due(file, first, room);
    let right = same_reply(r, due) & p.kept & p.foreseen & (!r.taken | p.settled);
    count(tally, 1, r.number as usize, right)
}

fn pick(first: bool, a: usize, b: usize) -> usize {
    if first { a } else { b }
}

// Whether the listing begins as it must, with `refused` or `seats`, and refuses a buffer that is a byte short.
fn lists(file: &[u8]) -> bool {
    let m = see_file(Call::Mark, file, MOVES_ROOM);
    let l = see_file(Call::List, file, LISTING_MAX + 7);
    let short = see_file(Call::List, file, LISTING_MAX - 1);
    let refused = m.reply;
    let letter = if refused.taken { b's' } else { b'r' };
    gives(l, 0, 0) & (l.letter == letter) & gives(short, 16, LISTING_MAX)
}

// Whether what was read of a file is written as the same bytes.
fn written_again(file: &[u8]) -> bool {
    let w = see_file(Call::Write, file, SMALL_ROOM);
    gives(w, 0, 0) & w.same
}

// A damaged file through marker, planner, listing, and reader and writer. Now and then a buffer is too short.
fn judge_file(tally: Tally, file: &[u8], short: bool) -> Tally {
    let first = read_check(file);
    let seen = judge_mark(tally, file, first, pick(short, MOVES_ROOM - 1, MOVES_ROOM));
    let seen = judge_plan(seen, file, first, pick(short, 60, SMALL_ROOM));
    // no line has this number, so nothing is counted but what is wrong
    count(
        seen,
        0,
        100,
        lists(file) & (!first.taken | written_again(file)),
    )
}

// The writer's answer, with a buffer of 60 bytes or one for any file: never line 22. What it writes, the reader takes.
fn judge_day(tally: Tally, day: Day, short: bool) -> Tally {
    let w = see(Call::Write, b"", day, pick(short, 60, LONGEST_FILE));
    let r = w.reply;
    let right = w.kept & (w.sound | !r.taken) & (r.number != 22);
    count(tally, 2, r.number as usize, right)
}

// A damaged file, and a damaged book.
pub fn judge(state: &mut u32, tally: Tally) -> Tally {
    let short = below(state, 8) == 0;
    let mut file = [0u8; SMALL_ROOM];
    let length = draw_file(state, &mut file);
    let seen = judge_file(tally, front(&file, length), short);
    judge_day(seen, draw_day(state), short)
}
