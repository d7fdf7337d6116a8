// The day of a file, as its bodies stand: of a file that is turned away this says nothing.
ghost use Rattle.std.specs.Prelude.{◌≡◌, [], ℕ, ◌<◌, replicate};
ghost use Rattle.std.specs.Prelude.{None, Some};
ghost use Rattle.model.specs.Lowest.{value_or, is_some, and_then};
ghost use Rattle.sheet.specs.Sheets.{grid_of};
ghost use Rattle.dayfile.specs.Layout.{field, fields_at, start, seats_in, windows_in, grid_in, book_of, sheet_of};
ghost use Rattle.dayfile.specs.Memory.{Holds, Under, found, sized, held, no_book};

use dayfile::{Book, Day, Found};
use fields::arrays::{array24, array32, fill, grid, no_grid};
use fields::{entry_of, field, seats, start, windows};
use sheet::Sheet;

// Whether there is an entry.
fn is_there(entry: Found) -> bool
    ensures { result ≡ is_some (found entry) }
{
    if let Found::At(_) = entry {
        true
    } else {
        false
    }
}

// The field that is the body of an entry; 0 where there is none.
fn field_of(file: &[u8], entry: Found) -> u16
    requires { Under 65536 (found entry) }
    ensures { result ≡ value_or (and_then (found entry) (λ e. Some (field file.now (start file.now e)))) 0 }
{
    if let Found::At(e) = entry {
        return field(file, start(file, e)) as u16;
    }
    0
}

// The n fields that are the body of an entry, to the front of an array of zeros; all stay 0 where there is none.
fn list_of(array: &mut [u16], file: &[u8], entry: Found, n: usize)
    requires { Under 65536 (found entry) × (n < 32768) }
    ensures { (l : ℕ) → array.old ≡ replicate l 0 → array.new ≡ sized l (value_or (and_then (found entry)
        (λ e. Some (fields_at file.now (start file.now e) n))) []) }
{
    if let Found::At(e) = entry {
        fill(array, file, start(file, e), n);
    }
}

// The book, but for its caps.
fn book_of(file: &[u8]) -> Book
    ensures seats { result.seats ≡ seats_in file.now }
    ensures windows { result.windows ≡ windows_in file.now }
    ensures classes { result.classes ≡ sized 32 (book_of file.now).classes }
    ensures supplies { result.supplies ≡ sized 24 (book_of file.now).supplies }
    ensures has_first { result.has_first ≡ is_some (book_of file.now).first }
    ensures first { result.first ≡ value_or (book_of file.now).first 0 }
    ensures has_balances { result.has_balances ≡ is_some (book_of file.now).balances }
    ensures balances { result.balances ≡ sized 32 (value_or (book_of file.now).balances []) }
    ensures has_weights { result.has_weights ≡ is_some (book_of file.now).weights }
    ensures weights { result.weights ≡ sized 8 (value_or (book_of file.now).weights []) }
{
    let seats = seats(file);
    let windows = windows(file);
    let classes = array32(file, start(file, 0), seats);
    let supplies = array24(file, start(file, 1), windows);
    let entry = entry_of(file, 5);
    let has_first = is_there(entry);
    let first = field_of(file, entry);
    let list = entry_of(file, 6);
    let has_balances = is_there(list);
    let mut balances = [0u16; 32];
    list_of(&mut balances, file, list, seats);
    let table = entry_of(file, 7);
    let has_weights = is_there(table);
    let mut weights = [0u16; 8];
    list_of(&mut weights, file, table, 8);
    Book {
        seats,
        windows,
        classes,
        supplies,
        has_first,
        first,
        has_balances,
        balances,
        has_weights,
        weights,
    }
}

// The grid that is the body of entry e.
fn grid_of(file: &[u8], e: usize) -> Sheet
    requires { e < 65536 }
    ensures { grid_of result ≡ held (grid_in file.now e) }
{
    grid(file, start(file, e), seats(file), windows(file))
}

// The sheet that is the body of an entry; all cells are 0 where there is none.
fn sheet_of(file: &[u8], entry: Found) -> Sheet
    requires { Under 65536 (found entry) }
    ensures { grid_of result ≡ held (value_or (and_then (found entry) (λ e. Some (grid_in file.now e))) []) }
{
    if let Found::At(e) = entry {
        return grid_of(file, e);
    }
    no_grid()
}

// The day of a file. Each part that may be missing has its entry looked up once.
pub fn day_of(file: &[u8]) -> Day
    ensures { Holds (book_of file.now) (sheet_of file.now) result }
{
    let book = book_of(file);
    let caps = grid_of(file, 2);
    let entry = entry_of(file, 4);
    let has_sheet = is_there(entry);
    let sheet = sheet_of(file, entry);
    Day {
        book,
        caps,
        has_sheet,
        sheet,
    }
}

// A day of zeros.
pub fn no_day() -> Day
    ensures { Holds no_book None result }
{
    let book = Book {
        seats: 0,
        windows: 0,
        classes: [0u16; 32],
        supplies: [0u16; 24],
        has_first: false,
        first: 0,
        has_balances: false,
        balances: [0u16; 32],
        has_weights: false,
        weights: [0u16; 8],
    };
    Day {
        book,
        caps: no_grid(),
        has_sheet: false,
        sheet: no_grid(),
    }
}
