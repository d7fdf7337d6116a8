// The file of a day in memory, stored at the front of a buffer: its contents, then its bodies in the order of their kinds.
#![tactic(auto)]

ghost use Rattle.std.specs.Prelude.{◌≡◌, ◌≤◌, length};
ghost use Rattle.model.specs.Book.{Grid};
ghost use Rattle.dayfile.specs.Memory.{file_with, front};

use bodies::{put_lists, put_options};
use contents::{count_entries, count_fields, put_contents, slots_of};
use dayfile::Book;
use numbers::{put_rows, size_if};
use sheet::Grid;

pub mod bodies;
pub mod contents;
pub mod numbers;

// The length of the file of a book with or without a sheet, whatever its caps and its sheet.
pub fn file_length(book: Book, has_sheet: bool) -> usize
    requires { (book.seats ≤ 32) × (book.windows ≤ 24) }
    ensures { (caps sheet : Grid) → result ≡ length (file_with book caps has_sheet sheet) }
{
    let slots = slots_of(book, has_sheet);
    2 + 6 * count_entries(slots) + 2 * count_fields(slots)
}

// The file at the front of a buffer that is long enough. A sheet that is missing has no rows. A further kind goes to `put_options`.
// The day comes in its parts, its two grids lent: whole, it would be copied.
pub fn put_file(out: &mut [u8], book: Book, caps: &Grid, has_sheet: bool, sheet: &Grid) -> usize
    requires seats_bound { (book.seats ≤ 32) × (book.windows ≤ 24) }
    requires sheet_in_bounds { length (file_with book caps.now has_sheet sheet.now) ≤ length out.old }
    ensures length { result ≡ length (file_with book caps.now has_sheet sheet.now) }
    ensures file { out.new ≡
        front (file_with book caps.now has_sheet sheet.now) out.old }
{
    let rows = size_if(has_sheet, book.seats);
    let p = put_contents(out, slots_of(book, has_sheet));
    let p = put_lists(out, p, book);
    let p = put_rows(out, p, caps, book.seats, book.windows);
    let p = put_rows(out, p, sheet, rows, book.windows);
    put_options(out, p, book)
}
