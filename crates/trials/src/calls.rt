// The library's calls, and what they leave in a buffer whose bytes are all 255 before the call.
ghost use Rattle.std.specs.Prelude.{◌≤◌};

use crate::forecasts::foreseen;
use answers::Numbers;
use dayfile::{Day, LONGEST_FILE};
use draws::put_day;
use lawful::MOVES_ROOM;
use listing::LISTING_MAX;
use oracle::idle::class_at;
use oracle::paths::byte;
use say::{Reply, all_from, checked, front, refusal, replied, taken};

// More bytes than any file and any listing has.
pub const ROOM: usize = LISTING_MAX + 7;

#[derive(Clone, Copy)]
pub enum Call {
    Mark,
    Plan,
    List,
    Write,
}

// What a call answered, and what stands in the buffer after it: whether the bytes behind what it wrote are still 255, the first byte, and
// whether what it wrote is the file it was given, is one that the reader takes, is one with mark 4, and is what was forecast of a plan.
#[derive(Clone, Copy)]
pub struct Seen {
    pub reply: Reply,
    pub kept: bool,
    pub letter: u8,
    pub same: bool,
    pub sound: bool,
    pub settled: bool,
    pub foreseen: bool,
}

pub fn read_check(file: &[u8]) -> Reply {
    let reading = reader::read(file);
    let check = reading.check;
    checked(check)
}

pub fn mark(file: &[u8], moves: &mut [u8]) -> Numbers {
    marker::mark(file, moves).numbers()
}

// A mark's answer, with the length of its moves. No path has more than 31.
fn marked(m: Numbers) -> Reply {
    if m.mark == 0 {
        return refusal(m.refusal, m.offset);
    }
    if m.moves < 32 {
        return taken(3 * m.moves);
    }
    taken(ROOM + 1)
}

pub fn mark_of(file: &[u8]) -> Numbers {
    let mut moves = [255u8; MOVES_ROOM];
    mark(file, &mut moves)
}

fn first(out: &[u8]) -> u8 {
    if 0 < out.len() { out[0] } else { 0 }
}

// A call on a file; the writer's on a day.
fn ask(call: Call, file: &[u8], day: Day, out: &mut [u8]) -> Reply {
    match call {
        Call::Mark => marked(mark(file, out)),
        Call::Plan => replied(planner::plan(file, out)),
        Call::List => replied(listing::listing(file, out)),
        Call::Write => replied(writer::write(out, day)),
    }
}

fn look(reply: Reply, file: &[u8], out: &[u8]) -> Seen {
    let written = front(out, reply.length);
    let sound = read_check(written);
    let numbers = mark_of(written);
    Seen {
        reply,
        kept: (reply.length <= out.len()) & all_from(out, reply.length, 255),
        letter: first(out),
        same: check::same(written, file),
        sound: sound.taken,
        settled: numbers.mark == 4,
        foreseen: foreseen(file, reply, out),
    }
}

pub fn lesser(a: usize, b: usize) -> usize
    ensures { result ≤ b }
{
    if a < b { a } else { b }
}

// A call with the front of a buffer. The bytes behind it must stay too.
fn see_in(call: Call, file: &[u8], day: Day, out: &mut [u8], room: usize) -> Seen {
    let n = lesser(room, out.len());
    let reply = ask(call, file, day, &mut out[..n]);
    look(reply, file, out)
}

// A call with a buffer of so many bytes.
pub fn see(call: Call, file: &[u8], day: Day, room: usize) -> Seen {
    let mut out = [255u8; ROOM];
    see_in(call, file, day, &mut out, room)
}

// A call on a file. What was read of it is what the writer is given.
pub fn see_file(call: Call, file: &[u8], room: usize) -> Seen {
    let reading = reader::read(file);
    see(call, file, reading.day, room)
}

// Whether an answer is this refusal, or none where its number is 0.
pub fn gives(seen: Seen, number: u8, at: usize) -> bool {
    let r = seen.reply;
    seen.kept & (r.taken == (number == 0)) & (r.number == number) & (r.at == at)
}

// Whether planner and forecast refuse a file by line 22, at the class of this seat, and no byte changes: with a buffer for any file, and
// with one that is too short for every planned file, since 22 comes before 16.
pub fn refused_idle(file: &[u8], seat: usize) -> bool
    requires { seat ≤ 32 }
{
    let at = class_at(byte(file, 0), seat);
    let whole = see_file(Call::Plan, file, ROOM);
    let short = see_file(Call::Plan, file, 33);
    gives(whole, 22, at) & whole.foreseen & gives(short, 22, at) & short.foreseen
}

// The length of a day's planned file, at the front of a buffer whose bytes are all 255; 0 where it is refused, was forecast otherwise or a
// byte behind it changed.
pub fn plan_day(day: Day, out: &mut [u8]) -> usize {
    let mut file = [0u8; LONGEST_FILE];
    let length = put_day(&mut file, day);
    let given = front(&file, length);
    let r = replied(planner::plan(given, out));
    if all_from(out, r.length, 255) & foreseen(given, r, out) {
        r.length
    } else {
        0
    }
}
