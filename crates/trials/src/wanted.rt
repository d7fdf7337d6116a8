// Wanted totals of small books: what is replied is held against every sheet and every group of seats.
use crate::calls::{lesser, read_check};
use crate::pairs::small_in;
use crate::tally::{Tally, count, count_if};
use draws::damage::{draw_hand_in, draw_written};
use draws::small::draw_small;
use draws::wanted::{ROW_ROOM, draw_length, draw_wanted};
use draws::{SMALL_ROOM, below};
use oracle::Small;
use oracle::idle::idle_seat;
use oracle::memory::cells_in;
use oracle::paths::byte;
use oracle::wanted::{gives, is_kind, is_large, overasks, size, some_seat, wanting, wants_in};
use reply::{FulfilResult, Reply};
use say::{all_from, front};

// More bytes than any sheet body of a small book has.
const OUT_ROOM: usize = 32;

// The call with the front of a buffer.
fn ask(file: &[u8], row: &[u8], out: &mut [u8], room: usize) -> Reply {
    let n = lesser(room, out.len());
    fulfil::fulfil(file, row, &mut out[..n])
}

fn told(number: u8, at: usize, length: usize, group: u32) -> FulfilResult {
    FulfilResult {
        refusal: number as u32,
        offset: at,
        length,
        group,
    }
}

fn same_numbers(a: FulfilResult, b: FulfilResult) -> bool {
    (a.refusal == b.refusal)
        & (a.offset == b.offset)
        & (a.length == b.length)
        & (a.group == b.group)
}

// The length of a right row: 4 bytes a seat, which is twice the length of the classes.
fn row_length(file: &[u8]) -> usize {
    2 * byte(file, 6) as usize
}

// The length of the sheet body is that of the caps.
fn body_length(file: &[u8]) -> usize {
    byte(file, 18) as usize
}

// The refusal that must be replied; where there is none, what a sheet would be replied with.
fn reply_due(file: &[u8], row: &[u8], room: usize) -> FulfilResult {
    let first = read_check(file);
    if !first.taken {
        return told(first.number, first.at, 0, 0);
    }
    if row.len() != row_length(file) {
        return told(21, 0, 0, 0);
    }
    let body = body_length(file);
    if room < body {
        return told(16, body, 0, 0);
    }
    told(0, 0, body, 0)
}

// Whether a reply's numbers are its own, and those that are due. A group's are due where no refusal is.
fn rightly_told(reply: Reply, due: FulfilResult) -> bool {
    let r = FulfilResult::of(reply);
    match reply {
        Reply::Refused { number, at } => {
            same_numbers(r, told(number, at, 0, 0)) & same_numbers(r, due)
        }
        Reply::Sheet { length } => same_numbers(r, told(0, 0, length, 0)) & same_numbers(r, due),
        Reply::Group { seats } => same_numbers(r, told(0, 0, 0, seats)) & (due.refusal == 0),
    }
}

// A sheet, at the front of the buffer: it gives what is wanted, and the bytes behind it are kept.
fn judge_sheet(tally: Tally, s: Small, wants: [u32; 4], length: usize, out: &[u8]) -> Tally {
    let cells = cells_in(out, s.seats, s.windows);
    let right = gives(s, wants, &cells) & all_from(out, length, 255);
    let seen = count_if(tally, idle_seat(s) != 0, 1, 7);
    count(seen, 1, wanting(wants), right)
}

// A group, which wants more than it can get, and writes nothing.
fn judge_group(tally: Tally, s: Small, wants: [u32; 4], group: u32, out: &[u8]) -> Tally {
    let right = overasks(s, wants, group) & all_from(out, 0, 255);
    let seen = count_if(tally, idle_seat(s) != 0, 2, 7);
    let seen = count(seen, 2, size(group) as usize, right);
    let seen = count_if(seen, !some_seat(s, wants), 2, 5);
    count_if(seen, is_large(wants), 2, 6)
}

// What a reply, with this group or none, left in the buffer. Every sheet is tried only where the file is as it was written: a damaged one
// may have large caps.
fn judge_reply(
    tally: Tally,
    file: &[u8],
    row: &[u8],
    due: FulfilResult,
    group: u32,
    out: &[u8],
    every: bool,
) -> Tally {
    if due.refusal != 0 {
        return count(tally, 0, due.refusal as usize, all_from(out, 0, 255));
    }
    let s = small_in(file);
    let wants = wants_in(row);
    // no line has this number, so nothing is counted but what is wrong
    let seen = count(tally, 0, 100, !every || is_kind(s, wants, group == 0));
    if group == 0 {
        return judge_sheet(seen, s, wants, due.length, out);
    }
    judge_group(seen, s, wants, group, out)
}

// A file and a row.
fn judge_row(tally: Tally, file: &[u8], row: &[u8], room: usize, every: bool) -> Tally {
    let mut out = [255u8; OUT_ROOM];
    let reply = ask(file, row, &mut out, room);
    let due = reply_due(file, row, room);
    let seen = count(tally, 0, 100, rightly_told(reply, due));
    let r = FulfilResult::of(reply);
    judge_reply(seen, file, row, due, r.group, &out, every)
}

// The file of a book, mostly with a sheet, lawful or not; as it was written, or damaged in some cases.
fn draw_case(state: &mut u32, file: &mut [u8], s: Small, written: bool) -> usize {
    if written {
        return draw_written(state, file, s);
    }
    draw_hand_in(state, file, s)
}

// A random small book and a row of wants, now and then of a wrong length, with a buffer that is sometimes too short.
pub fn judge(state: &mut u32, tally: Tally) -> Tally {
    let s = draw_small(state);
    let written = below(state, 4) != 0;
    let mut file = [0u8; SMALL_ROOM];
    let n = draw_case(state, &mut file, s, written);
    let mut row = [0u8; ROW_ROOM];
    let length = draw_wanted(state, &mut row, s, row_length(&file));
    let room = lesser(draw_length(state, body_length(&file)), OUT_ROOM);
    judge_row(tally, front(&file, n), front(&row, length), room, written)
}
