// Lines 7 to 9: body lengths.
ghost use Rattle.std.specs.Prelude.{◌≡◌, not};
ghost use Rattle.model.specs.Lowest.{when};
ghost use Rattle.dayfile.specs.Table.{size_right, first_of, length_lines};
ghost use Rattle.dayfile.specs.Memory.{found, refused};

use dayfile::{Check, Found, first_of, within};
use entries::{Test, wrong_entry};
use fields::size;

// Low to high, and even.
fn size_right(low: usize, high: usize, n: usize) -> bool
    ensures { result ≡ size_right low high n }
{
    within(low, high, n) && n % 2 == 0
}

// A length that is not 2 to `high`, or odd, at its offset: lines 7 and 8.
fn wrong_size(high: usize, n: usize, at: usize) -> Found
    ensures { found result ≡ when (not (size_right 2 high n)) at }
{
    if size_right(2, high, n) {
        Found::Nothing
    } else {
        Found::At(at)
    }
}

// Lines 7 to 9: seats and windows; and caps or sheet not 2 × seats × windows, at that length.
pub fn check_lengths(file: &[u8]) -> Check
    ensures { refused result ≡ first_of (length_lines file.now) }
{
    let seats = wrong_size(64, size(file, 0), 6);
    let windows = wrong_size(48, size(file, 1), 12);
    first_of(7, seats, windows, wrong_entry(file, Test::Grids, 6))
}
