// Lines 7, 8, 10, 11, 12 and those of the parts that may be missing, on a day in memory, with the offsets of the file that would be
// written.
ghost use Rattle.std.specs.Prelude.{◌≡◌, [], ◌∷◌, ◌++◌, ◌+◌, ◌*◌, ◌<◌, ◌≤◌};
ghost use Rattle.model.specs.Book.{Grid};
ghost use Rattle.sheet.specs.Sheets.{grid_of};
ghost use Rattle.dayfile.specs.Layout.{contents_end};
ghost use Rattle.dayfile.specs.File.{flat};
ghost use Rattle.dayfile.specs.Table.{line, line7, line8, value_lines, option_lines, first_of};
ghost use Rattle.dayfile.specs.Memory.{found, refused, sized, sized_grid, file_with, file_in};
ghost use Rattle.dayfile.specs.declared.Day.{Day};
ghost use Rattle.store.specs.Stores.{size_if, entries, slots_of, slots_in};
ghost use Rattle.writer.specs.Values.{wrong_in, outside_in};

use dayfile::{Book, Check, Day, Found, first_of, outside_at, right_after};
use sheet::Sheet;
use store::contents::first_body;
use store::numbers::{number, size_if};

// The first of n numbers that is not low to high or, where they are to rise, not greater than the one before; the first one's field is at
// `at`.
fn wrong_in(src: &[u16], n: usize, at: usize, low: usize, high: usize, rising: bool) -> Found
    requires { (at < 65536) × (n < 65536) }
    ensures { found result ≡ wrong_in (sized n src.now) at low high rising }
{
    let mut before = 0;
    let mut i = 0;
    while i < n {
        let x = number(src, i);
        if !right_after(low, high, rising, before, x) {
            return Found::At(at + 2 * i);
        }
        before = x;
        i += 1;
    }
    Found::Nothing
}

// The first of n numbers that is not low to high.
fn outside_in(src: &[u16], n: usize, at: usize, low: usize, high: usize) -> Found
    requires { (at < 65536) × (n < 65536) }
    ensures { found result ≡ outside_in (sized n src.now) at low high }
{
    wrong_in(src, n, at, low, high, false)
}

// The same of n rows of m cells, up to `high`.
fn above_in(grid: Sheet, n: usize, m: usize, at: usize, high: usize) -> Found
    requires { (at < 60000) × (n ≤ 32) × (m ≤ 24) }
    ensures { found result ≡ outside_in (flat (sized_grid n m (grid_of grid))) at 0 high }
{
    let mut i = 0;
    while i < n {
        let row = grid.rows[i];
        let cells = row.cells;
        if let Found::At(p) = outside_in(&cells, m, at + 2 * (i * m), 0, high) {
            return Found::At(p);
        }
        i += 1;
    }
    Found::Nothing
}

// Lines 7 and 8.
fn check_counts(book: Book) -> Check
    ensures { (d : Day) → d.book ≡ book
        → refused result ≡ first_of (line 7 (line7 (file_in d)) ∷ line 8 (line8 (file_in d)) ∷ []) }
{
    first_of(
        7,
        outside_at(1, 32, book.seats, 6),
        outside_at(1, 24, book.windows, 12),
        Found::Nothing,
    )
}

// Lines 10 to 12, where the first body starts at `at`.
fn check_values(book: Book, caps: Sheet, at: usize) -> Check
    requires { (book.seats ≤ 32) × (book.windows ≤ 24) × (at < 100) }
    ensures { (d : Day) → d.book ≡ book → d.caps ≡ caps → at ≡ contents_end (entries (slots_in d))
        → refused result ≡ first_of (value_lines (file_in d)) }
{
    let n = book.seats;
    let m = book.windows;
    let classes = book.classes;
    let supplies = book.supplies;
    first_of(
        10,
        outside_in(&classes, n, at, 1, 8),
        outside_in(&supplies, m, at + 2 * n, 0, 4095),
        above_in(caps, n, m, at + 2 * n + 2 * m, 4095),
    )
}

// How many fields stand before the first seat's: classes, supplies, caps, and the sheet where it is there.
fn ahead_of_first(book: Book, has_sheet: bool) -> usize
    requires { (book.seats ≤ 32) × (book.windows ≤ 24) }
    ensures { (result ≡ book.seats + book.windows + book.seats * book.windows + size_if has_sheet (book.seats * book.windows))
        × (result < 2000) }
{
    let cells = book.seats * book.windows;
    book.seats + book.windows + cells + size_if(has_sheet, cells)
}

// The lines of the parts that may be missing, where the first body starts at `at`. Their lengths are right by making, and one that is
// missing has no numbers.
fn check_options(book: Book, has_sheet: bool, at: usize) -> Check
    requires { (book.seats ≤ 32) × (book.windows ≤ 24) × (at < 100) }
    ensures { (caps sheet : Grid) → at ≡ contents_end (entries (slots_of book has_sheet))
        → refused result ≡ first_of (option_lines (file_with book caps has_sheet sheet)) }
{
    let first = [book.first];
    let balances = book.balances;
    let weights = book.weights;
    let one = size_if(book.has_first, 1);
    let each = size_if(book.has_balances, book.seats);
    let eight = size_if(book.has_weights, 8);
    let p = at + 2 * ahead_of_first(book, has_sheet);
    first_of(
        18,
        outside_in(&first, one, p, 1, book.seats),
        outside_in(&balances, each, p + 2 * one, 0, 50000),
        wrong_in(&weights, eight, p + 2 * one + 2 * each, 1, 1000, true),
    )
}

// All of the writer's lines but 16.
pub fn check_day(day: Day) -> Check
    ensures { refused result ≡ first_of (line 7 (line7 (file_in day)) ∷ line 8 (line8 (file_in day))
        ∷ (value_lines (file_in day) ++ option_lines (file_in day))) }
{
    let book = day.book;
    if let Check::Refused { number, at } = check_counts(book) {
        return Check::Refused { number, at };
    }
    let start = first_body(book, day.has_sheet);
    if let Check::Refused { number, at } = check_values(book, day.caps, start) {
        return Check::Refused { number, at };
    }
    check_options(book, day.has_sheet, start)
}
