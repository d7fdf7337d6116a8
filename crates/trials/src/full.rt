// Full-size books, planned and marked.
ghost use Rattle.std.specs.Prelude.{◌≤◌};

use crate::calls::{Call, mark_of, plan_day, refused_idle, see_file};
use crate::tally::{Tally, count, count_if};
use dayfile::{Day, LONGEST_FILE};
use draws::full::{draw_full, with_zeros};
use draws::put_day;
use oracle::idle::idle_in;
use say::front;

// More bytes than any file has.
const PLAN_ROOM: usize = LONGEST_FILE + 10;

// Whether a planned file gets mark 4, and planned again stays as it is, as forecast: the sheet that is given does not count.
fn rightly_planned(file: &[u8]) -> bool {
    let again = see_file(Call::Plan, file, LONGEST_FILE);
    again.kept & again.same & again.settled & again.foreseen
}

// A book with an idle seat, the lowest of them given: it is not planned, and a sheet of zeros is marked as wasteful.
fn judge_idle(tally: Tally, day: Day, seat: usize) -> Tally
    requires { seat ≤ 32 }
{
    let mut file = [0u8; LONGEST_FILE];
    let length = put_day(&mut file, with_zeros(day));
    let given = front(&file, length);
    let m = mark_of(given);
    count(tally, 0, 22, refused_idle(given, seat) & (m.mark == 1))
}

// A book without one, planned.
fn judge_plan(tally: Tally, day: Day) -> Tally {
    let mut out = [255u8; PLAN_ROOM];
    let book = day.book;
    let end = plan_day(day, &mut out);
    let seen = count_if(tally, book.has_balances, 0, 1);
    let seen = count_if(seen, book.has_weights, 0, 2);
    count(seen, 0, 0, rightly_planned(front(&out, end)))
}

// A random book of 32 seats and 24 windows.
pub fn judge(state: &mut u32, tally: Tally) -> Tally {
    let day = draw_full(state);
    let seat = idle_in(day);
    if seat != 0 {
        return judge_idle(tally, day, seat);
    }
    judge_plan(tally, day)
}
