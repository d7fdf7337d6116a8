// What a listing says of a sheet: each window's cells together, and each seat's total.
ghost use Rattle.std.specs.Prelude.{◌≡◌, ℕ, ◌≤◌, ◌<◌, get_or};
ghost use Rattle.fairness.specs.Sums.{sum};
ghost use Rattle.sheet.specs.Sheets.{credit};

use sheet::Sheet;

#[derive(Clone, Copy)]
pub struct Sums {
    pub placed: [u32; 24],
    pub totals: [u32; 32],
}

// Each seat's total.
fn totals(sheet: Sheet, seats: usize, windows: usize) -> [u32; 32]
    requires { (seats ≤ 32) × (windows ≤ 24) }
    ensures { (i : ℕ) → i < seats → get_or result i 0 ≡ sum windows (λ j. credit sheet i j) }
{
    let mut totals = [0u32; 32];
    for i in 0..seats {
        let row = sheet.rows[i];
        let cells = row.cells;
        totals[i] = sheet::row_total(&cells, windows);
    }
    totals
}

// Of the seats and windows that are used.
pub fn sums_of(sheet: Sheet, seats: usize, windows: usize) -> Sums
    requires { (seats ≤ 32) × (windows ≤ 24) }
    ensures by_index { (j : ℕ) → j < windows → get_or result.placed j 0 ≡ sum seats (λ i. credit sheet i j) }
    ensures by_index_2 { (i : ℕ) → i < seats → get_or result.totals i 0 ≡ sum windows (λ j. credit sheet i j) }
{
    let placed = sheet.placed(seats, windows);
    let totals = totals(sheet, seats, windows);
    Sums { placed, totals }
}
