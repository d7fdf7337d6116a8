// From wanted totals to a sheet: of a day file and a row of them, a lawful sheet with just those totals, or a group of seats that wants
// more than it can get.
#![tactic(auto)]

ghost use Rattle.std.specs.Prelude.{◌≡◌};
ghost use Rattle.dayfile.specs.Table.{first_of, line21, body_length};
ghost use Rattle.dayfile.specs.Memory.{found, refused};
ghost use Rattle.fulfil.specs.Fulfilling.{Fulfils};
ghost use Rattle.fulfil.specs.Steps.{lent_lines};

use dayfile::{Check, Found, check_room};
use fields::{seats, windows};
use grant::grant;
use instance::terms_of;
use reply::Reply;
use store::numbers::put_rows;
use wants::wants_of;

// Line 21: the row is not 4 bytes per seat.
fn wrong_row(file: &[u8], row: &[u8]) -> Found
    ensures { found result ≡ line21 file.now row.now }
{
    if row.len() == 4 * seats(file) {
        Found::Nothing
    } else {
        Found::At(0)
    }
}

// How long a sheet body is: two bytes for each seat and window.
fn body_length(file: &[u8]) -> usize
    ensures { result ≡ body_length file.now }
{
    2 * (seats(file) * windows(file))
}

// The lines of what is lent beside the file: 21, then 16.
fn check_lent(file: &[u8], row: &[u8], room: usize) -> Check
    ensures { refused result ≡ first_of (lent_lines file.now row.now room) }
{
    if let Found::At(p) = wrong_row(file, row) {
        return Check::Refused { number: 21, at: p };
    }
    check_room(room, body_length(file))
}

// A sheet's body at the front of the buffer, a group, or the refusal.
pub fn fulfil(file: &[u8], row: &[u8], out: &mut [u8]) -> Reply
    ensures { Fulfils file.now row.now out.old out.new result }
{
    let reading = reader::read(file);
    let check = reading.check;
    if let Check::Refused { number, at } = check {
        return Reply::Refused { number, at };
    }
    if let Check::Refused { number, at } = check_lent(file, row, out.len()) {
        return Reply::Refused { number, at };
    }
    let book = reading.day.book;
    let caps = reading.day.caps.to_grid();
    let mut sheet = [[0u16; 24]; 32];
    let group = grant(terms_of(book), &caps, wants_of(row, book.seats), &mut sheet);
    if group != 0 {
        return Reply::Group { seats: group };
    }
    let length = put_rows(out, 0, &sheet, book.seats, book.windows);
    Reply::Sheet { length }
}
