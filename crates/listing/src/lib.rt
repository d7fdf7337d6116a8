// The text that the program `mark` prints of a file, written to the front of an output buffer.
#![tactic(auto)]

ghost use Rattle.std.specs.Prelude.{◌≡◌, List, ◌++◌, ℕ, ◌≤◌, ◌*◌, length};
ghost use Rattle.fairness.specs.Exchange.{Move};
ghost use Rattle.model.specs.Marks.{move_bytes};
ghost use Rattle.dayfile.specs.Bounds.{Fit};
ghost use Rattle.dayfile.specs.Memory.{day_book, cells_in};
ghost use Rattle.sheet.specs.Sheets.{grid_of};
ghost use Rattle.answers.specs.Answers.{result_in};
ghost use Rattle.text.specs.Printing.{Room, Prints};
ghost use Rattle.lines.specs.Lines.{Printed};
ghost use Rattle.listing.specs.Listing.{book_lines, result_lines, listing_text, listing_of, listing_max};
ghost use Rattle.listing.specs.Calls.{Listed, Lists};

use answers::Numbers;
use dayfile::{Book, Day, Written};
use lawful::MOVES_ROOM;
use lines::{line, part, put_move_lines, put_refusal, put_seat_lines, put_window_lines};
use sums::{Sums, sums_of};
use text::Printer;

pub mod sums;

// A buffer of this length takes every listing.
pub const LISTING_MAX: usize = 3453;

// The first line, the windows and the seats.
fn put_book_lines(to: &mut Printer, book: Book, sums: Sums)
    requires seats_bound { (book.seats ≤ 32) × (book.windows ≤ 24) }
    requires room { Room to.old
        (book_lines book.seats book.windows book.classes book.supplies sums.placed sums.totals) }
    ensures { Prints to.old
        (book_lines book.seats book.windows book.classes book.supplies sums.placed sums.totals) to.new }
{
    let seats = book.seats;
    let windows = book.windows;
    line::put_head_line(to, seats, windows);
    put_window_lines(to, &book.supplies[..windows], &sums.placed[..windows]);
    put_seat_lines(to, &book.classes[..seats], &sums.totals[..seats]);
}

// The mark, and what belongs to it: a window and a seat, or moves.
fn put_result_lines(to: &mut Printer, res: Numbers, moves: &[u8])
    requires moves_in_bounds { res.moves * 3 ≤ length moves.now }
    requires room { Room to.old (result_lines (result_in res) moves.now) }
    ensures { Prints to.old (result_lines (result_in res) moves.now) to.new }
{
    part::put_last_field(to, b"mark ", usize::from(res.mark));
    if res.mark == 1 {
        line::put_left_line(to, res.window, res.seat);
    } else {
        put_move_lines(to, &moves[..res.moves * 3]);
    }
}

// A whole listing at the buffer's front; returns its length. The moves of marks 2 and 3 come as the marker writes them.
#[tactic(auto, using(text::proofs::Printing::printing), unfolding(crate::specs::Listing::listing_text))]
pub fn put_listing(out: &mut [u8], book: Book, sums: Sums, res: Numbers, moves: &[u8]) -> usize
    requires listing_max_in_bounds { listing_max ≤ length out.old }
    requires seats_bound { (book.seats ≤ 32) × (book.windows ≤ 24) }
    requires moves_bound { (res.moves ≤ 31) × (res.moves * 3 ≤ length moves.now) }
    ensures { Printed out.old
        (listing_text book.seats book.windows book.classes book.supplies sums.placed sums.totals
        (result_in res) moves.now)
        out.new result }
{
    let mut printer = Printer::new(out);
    put_book_lines(&mut printer, book, sums);
    put_result_lines(&mut printer, res, moves);
    printer.len()
}

// The listing of a day with a sheet, whatever the mark and the moves are.
fn put_day(out: &mut [u8], day: Day, res: Numbers, moves: &[u8]) -> usize
    requires fit { Fit (day_book day) × (listing_max ≤ length out.old) }
    requires moves_bound { (res.moves ≤ 31) × (res.moves * 3 ≤ length moves.now) }
    ensures { (ms : List Move) (rest : List ℕ) → moves.now ≡ move_bytes ms ++ rest → res.moves ≡ length ms →
        Printed out.old (listing_of (day_book day) (cells_in day.book (grid_of day.sheet)) (result_in res) ms)
        out.new result }
{
    let book = day.book;
    let sheet = day.sheet;
    let sums = sums_of(sheet, book.seats, book.windows);
    put_listing(out, book, sums, res, moves)
}

// The text of a file: a refusal's line, or the listing of its sheet and mark.
fn put_text(file: &[u8], out: &mut [u8]) -> usize
    requires { listing_max ≤ length out.old }
    ensures { Listed file.now out.old out.new result }
{
    let reading = reader::read(file);
    let mut moves = [0u8; MOVES_ROOM];
    let marking = marker::mark_reading(file, reading, &mut moves);
    let result = marking.numbers();
    if result.mark == 0 {
        return put_refusal(out, result.refusal as usize, result.offset);
    }
    let day = reading.day;
    put_day(out, day, result, &moves)
}

// The text that the program `mark` prints of a file, at the front of the buffer. A refusal of the file is a text as well: only a buffer
// that could be too short for some listing is refused.
pub fn listing(file: &[u8], out: &mut [u8]) -> Written
    ensures { Lists file.now out.old out.new result }
{
    if out.len() < LISTING_MAX {
        return Written::Refused {
            number: 16,
            at: LISTING_MAX,
        };
    }
    Written::Whole {
        length: put_text(file, out),
    }
}
