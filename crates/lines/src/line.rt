// One line of each kind. Seats and windows count from 0, but those of the mark and of moves come as they are printed.
ghost use Rattle.std.specs.Prelude.{◌<◌};
ghost use Rattle.text.specs.Printing.{Room, Prints};
ghost use Rattle.lines.specs.Lines.{head_line, window_line, seat_line, left_line, move_line, refusal_line};

use crate::part::{put_field, put_last_field, put_opens};
use text::Printer;

// How many seats and windows there are.
#[tactic(auto, using(text::proofs::Printing::printing), unfolding(crate::specs::Lines::head_line))]
pub fn put_head_line(to: &mut Printer, seats: usize, windows: usize)
    requires { Room to.old (head_line seats windows) }
    ensures { Prints to.old (head_line seats windows) to.new }
{
    put_field(to, b"seats ", seats);
    put_last_field(to, b" windows ", windows);
}

// A window: when it opens, what it has and what is placed.
#[tactic(auto, using(text::proofs::Printing::printing), unfolding(crate::specs::Lines::window_line))]
pub(crate) fn put_window_line(to: &mut Printer, window: usize, supply: u16, placed: u32)
    requires window_bound { window < 24 }
    requires room { Room to.old (window_line window supply placed) }
    ensures { Prints to.old (window_line window supply placed) to.new }
{
    put_field(to, b"window ", window + 1);
    put_opens(to, window);
    put_field(to, b" supply ", supply as usize);
    put_last_field(to, b" placed ", placed as usize);
}

// A seat: its class and its total.
#[tactic(auto, using(text::proofs::Printing::printing), unfolding(crate::specs::Lines::seat_line))]
pub(crate) fn put_seat_line(to: &mut Printer, seat: usize, class: u16, total: u32)
    requires seat_bound { seat < 32 }
    requires room { Room to.old (seat_line seat class total) }
    ensures { Prints to.old (seat_line seat class total) to.new }
{
    put_field(to, b"seat ", seat + 1);
    put_field(to, b" class ", class as usize);
    put_last_field(to, b" total ", total as usize);
}

// Where a wasteful sheet left a credit.
#[tactic(auto, using(text::proofs::Printing::printing), unfolding(crate::specs::Lines::left_line))]
pub fn put_left_line(to: &mut Printer, window: usize, seat: usize)
    requires { Room to.old (left_line window seat) }
    ensures { Prints to.old (left_line window seat) to.new }
{
    put_field(to, b"left window ", window);
    put_last_field(to, b" seat ", seat);
}

// A move: one credit in a window, from a giver to a taker.
#[tactic(auto, using(text::proofs::Printing::printing), unfolding(crate::specs::Lines::move_line))]
pub(crate) fn put_move_line(to: &mut Printer, window: u8, giver: u8, taker: u8)
    requires { Room to.old (move_line window giver taker) }
    ensures { Prints to.old (move_line window giver taker) to.new }
{
    put_field(to, b"move window ", window as usize);
    put_field(to, b" from ", giver as usize);
    put_last_field(to, b" to ", taker as usize);
}

// A refusal: which line of the table it is, and where.
#[tactic(auto, using(text::proofs::Printing::printing), unfolding(crate::specs::Lines::refusal_line))]
pub(crate) fn put_refusal_line(to: &mut Printer, number: usize, offset: usize)
    requires { Room to.old (refusal_line number offset) }
    ensures { Prints to.old (refusal_line number offset) to.new }
{
    put_field(to, b"refused ", number);
    put_last_field(to, b" at ", offset);
}
