// The cells of a file's sheet against its caps and supplies: the table's lines 13 to 15.
#![tactic(auto)]

ghost use Rattle.std.specs.Prelude.{◌≡◌, ◌<◌};
ghost use Rattle.dayfile.specs.Table.{line13, line14, line15, placed_in, first_of, marker_lines};
ghost use Rattle.dayfile.specs.Memory.{found, refused};
ghost use Rattle.cells.specs.Firsts.{first_above, first_over};

use dayfile::{Check, Found, first_of};
use fields::{entry_of, field, seats, start, windows};

// Line 13: no sheet.
fn no_sheet(file: &[u8]) -> Found
    ensures { found result ≡ line13 file.now }
{
    if let Found::At(_) = entry_of(file, 4) {
        return Found::Nothing;
    }
    Found::At(0)
}

// The first of n fields from an offset on that is above its fellow, the field with the same number from another offset on.
fn first_above(file: &[u8], at: usize, most: usize, n: usize) -> Found
    requires { (at < 65536) × (most < 65536) × (n < 2000000000) }
    ensures { found result ≡ first_above file.now at most n }
{
    let mut i = 0;
    while i < n {
        if field(file, most + 2 * i) < field(file, at + 2 * i) {
            return Found::At(at + 2 * i);
        }
        i += 1;
    }
    Found::Nothing
}

// Line 14: cell above its cap.
fn cell_above(file: &[u8]) -> Found
    ensures { found result ≡ line14 file.now }
{
    if let Found::At(e) = entry_of(file, 4) {
        return first_above(
            file,
            start(file, e),
            start(file, 2),
            seats(file) * windows(file),
        );
    }
    Found::Nothing
}

// A window's cells together, in the body of entry e.
fn placed(file: &[u8], e: usize, j: usize) -> usize
    requires { (e < 65536) × (j < 32768) }
    ensures { result ≡ placed_in file.now e j }
{
    let at = start(file, e);
    let n = seats(file);
    let m = windows(file);
    let mut total = 0;
    let mut i = 0;
    while i < n {
        total += field(file, at + 2 * (i * m + j));
        i += 1;
    }
    total
}

// The supply of the first window whose cells together, in the body of entry e, are above it.
fn first_over(file: &[u8], e: usize) -> Found
    requires { e < 65536 }
    ensures { found result ≡ first_over file.now e }
{
    let at = start(file, 1);
    let m = windows(file);
    let mut j = 0;
    while j < m {
        if field(file, at + 2 * j) < placed(file, e, j) {
            return Found::At(at + 2 * j);
        }
        j += 1;
    }
    Found::Nothing
}

// Line 15: window's cells above its supply.
fn window_over(file: &[u8]) -> Found
    ensures { found result ≡ line15 file.now }
{
    if let Found::At(e) = entry_of(file, 4) {
        return first_over(file, e);
    }
    Found::Nothing
}

// Lines 13 to 15.
pub fn check_sheet(file: &[u8]) -> Check
    ensures { refused result ≡ first_of (marker_lines file.now) }
{
    first_of(13, no_sheet(file), cell_above(file), window_over(file))
}
