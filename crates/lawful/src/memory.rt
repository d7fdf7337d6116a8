// A quick look at a sheet in memory: nearly every sheet is lawful, and then none of the lines 13 to 15 holds. A sheet that is not is left
// to the lines, which say where.
ghost use Rattle.std.specs.Prelude.{◌≡◌, true, ℕ, ◌≤◌, ◌<◌, get_or};
ghost use Rattle.model.specs.Book.{Lawful};
ghost use Rattle.sheet.specs.Sheets.{credit, grid_of};
ghost use Rattle.dayfile.specs.Memory.{day_book, cells_in};

use dayfile::Day;
use sheet::Sheet;

// Whether no cell of a row is above its cap. It looks at all cells, so that the processor takes several at a time.
fn row_within(row: [u16; 24], caps: [u16; 24], windows: usize) -> bool
    requires { windows ≤ 24 }
    ensures { result ≡ true → (j : ℕ) → j < windows → get_or row j 0 ≤ get_or caps j 0 }
{
    let mut above: u32 = 0;
    for w in 0..windows {
        if caps[w] < row[w] {
            above += 1;
        }
    }
    above == 0
}

// Whether no cell is above its cap.
fn within_caps(sheet: Sheet, caps: Sheet, seats: usize, windows: usize) -> bool
    requires { (seats ≤ 32) × (windows ≤ 24) }
    ensures { result ≡ true → (i j : ℕ) → i < seats → j < windows → credit sheet i j ≤ credit caps i j }
{
    for i in 0..seats {
        let row = sheet.rows[i];
        let cells = row.cells;
        let most = caps.rows[i];
        let limits = most.cells;
        if !row_within(cells, limits, windows) {
            return false;
        }
    }
    true
}

// Whether no window's cells together are above its supply.
fn within_supplies(placed: [u32; 24], supplies: [u16; 24], windows: usize) -> bool
    requires { windows ≤ 24 }
    ensures { result ≡ true → (j : ℕ) → j < windows → get_or placed j 0 ≤ get_or supplies j 0 }
{
    for w in 0..windows {
        if (supplies[w] as u32) < placed[w] {
            return false;
        }
    }
    true
}

// Of fewer seats the lines themselves are as quick.
const FEW_SEATS: usize = 8;

// Whether a day has a sheet that is seen to be lawful.
pub fn is_lawful(day: Day) -> bool
    requires { (day.book.seats ≤ 32) × (day.book.windows ≤ 24) }
    ensures { result ≡ true → (day.has_sheet ≡ true) × Lawful (day_book day) (cells_in day.book (grid_of day.sheet)) }
{
    let book = day.book;
    if !day.has_sheet || book.seats < FEW_SEATS {
        return false;
    }
    let sheet = day.sheet;
    let caps = day.caps;
    let supplies = book.supplies;
    let seats = book.seats;
    let windows = book.windows;
    if !within_caps(sheet, caps, seats, windows) {
        return false;
    }
    within_supplies(sheet.placed(seats, windows), supplies, windows)
}
