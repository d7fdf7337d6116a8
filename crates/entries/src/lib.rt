// The entries of the table of contents: three tests that each of them is to pass, and the first that does not.
#![tactic(auto)]

ghost use Rattle.std.specs.Prelude.{◌≡◌, ◌+◌, ◌*◌, ◌<◌};
ghost use Rattle.dayfile.specs.Table.{kind_right, grid_right, wrong_entry};
ghost use Rattle.dayfile.specs.Memory.{found};
ghost use Rattle.entries.specs.Entries.{right_by};

use dayfile::{Found, KNOWN, within};
use fields::{count, ends, kind, seats, size, start, windows};

// What is tested: its kind, where its body starts, how long a grid is.
#[derive(Clone, Copy)]
pub enum Test {
    Kinds,
    Starts,
    Grids,
}

// Entries 0, 1, 2 are of kinds 1, 2, 3, and each later kind is above the one before it and known.
fn kind_right(file: &[u8], e: usize) -> bool
    requires { e < 65536 }
    ensures { result ≡ kind_right file.now e }
{
    if e < 3 {
        kind(file, e) == e + 1
    } else {
        within(kind(file, e - 1) + 1, KNOWN, kind(file, e))
    }
}

// A body of kind 3 or 4 has two bytes for each seat and window.
fn grid_right(file: &[u8], e: usize) -> bool
    requires { e < 65536 }
    ensures { result ≡ grid_right file.now e }
{
    if within(3, 4, kind(file, e)) {
        size(file, e) == 2 * (seats(file) * windows(file))
    } else {
        true
    }
}

// Whether entry e passes a test.
fn entry_right(file: &[u8], test: Test, e: usize) -> bool
    requires { e < 65536 }
    ensures { result ≡ right_by test file.now e }
{
    match test {
        Test::Kinds => kind_right(file, e),
        Test::Starts => start(file, e) == ends(file, e),
        Test::Grids => grid_right(file, e),
    }
}

// The first entry that fails a test, as the offset of one of its fields: entry 0 has that field at `at`.
pub fn wrong_entry(file: &[u8], test: Test, at: usize) -> Found
    requires { at < 65536 }
    ensures { found result ≡ wrong_entry (λ e. at + 6 * e) (right_by test) file.now }
{
    let n = count(file);
    let mut e = 0;
    while e < n {
        if !entry_right(file, test, e) {
            return Found::At(at + 6 * e);
        }
        e += 1;
    }
    Found::Nothing
}
