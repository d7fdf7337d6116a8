// The lines of a listing, one after another, and the line of a refusal. Seats and windows count from 0 here and from 1 in the text.
#![tactic(auto)]

ghost use Rattle.std.specs.Prelude.{◌≡◌, ◌≤◌, ◌/◌, length};
ghost use Rattle.text.specs.Printing.{Room, Prints};
ghost use Rattle.lines.specs.Lines.{refusal_line, window_lines, seat_lines, move_lines, Printed, refusal_max};

use text::Printer;

pub mod line;
pub mod part;

// A line for each window.
#[tactic(auto, using(crate::proofs::Growing::line_by_line), unfolding(crate::specs::Lines::window_lines))]
pub fn put_window_lines(to: &mut Printer, supplies: &[u16], placed: &[u32])
    requires windows_bound { length supplies.now ≤ 24 }
    requires same_length { length placed.now ≡ length supplies.now }
    requires room { Room to.old (window_lines (length supplies.now) supplies.now placed.now) }
    ensures { Prints to.old (window_lines (length supplies.now) supplies.now placed.now) to.new }
{
    for window in 0..supplies.len() {
        line::put_window_line(to, window, supplies[window], placed[window]);
    }
}

// A line for each seat.
#[tactic(auto, using(crate::proofs::Growing::line_by_line), unfolding(crate::specs::Lines::seat_lines))]
pub fn put_seat_lines(to: &mut Printer, classes: &[u16], totals: &[u32])
    requires seats_bound { length classes.now ≤ 32 }
    requires same_length { length totals.now ≡ length classes.now }
    requires room { Room to.old (seat_lines (length classes.now) classes.now totals.now) }
    ensures { Prints to.old (seat_lines (length classes.now) classes.now totals.now) to.new }
{
    for seat in 0..classes.len() {
        line::put_seat_line(to, seat, classes[seat], totals[seat]);
    }
}

// A line for each move. Moves come as the marker writes them: three bytes each, window, giver, taker.
#[tactic(auto, using(crate::proofs::Growing::line_by_line), unfolding(crate::specs::Lines::move_lines))]
pub fn put_move_lines(to: &mut Printer, moves: &[u8])
    requires { Room to.old (move_lines (length moves.now / 3) moves.now) }
    ensures { Prints to.old (move_lines (length moves.now / 3) moves.now) to.new }
{
    let (moves, _) = moves.as_chunks::<3>();
    for &[window, giver, taker] in moves {
        line::put_move_line(to, window, giver, taker);
    }
}

// A refusal at the buffer's front; returns its length.
#[tactic(auto, using(crate::proofs::Bounds::refusal_room))]
pub fn put_refusal(out: &mut [u8], number: usize, offset: usize) -> usize
    requires { refusal_max ≤ length out.old }
    ensures { Printed out.old (refusal_line number offset) out.new result }
{
    let mut printer = Printer::new(out);
    line::put_refusal_line(&mut printer, number, offset);
    printer.len()
}
