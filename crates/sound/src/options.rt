// The lines of the kinds that may be missing.
ghost use Rattle.std.specs.Prelude.{◌≡◌, ◌<◌};
ghost use Rattle.model.specs.Lowest.{and_then};
ghost use Rattle.dayfile.specs.Layout.{entry_of};
ghost use Rattle.dayfile.specs.Table.{wrong_fields, first_of, option_lines};
ghost use Rattle.dayfile.specs.Memory.{found, refused};

use dayfile::{Check, Found, first_of};
use fields::{entry_of, seats, size, start};
use values::wrong_field;

// Entry e as a body of n fields, each low to high, rising or not: its length is not 2 × n, at that length; or a field is not right, at that
// value.
fn wrong_fields(file: &[u8], e: usize, n: usize, low: usize, high: usize, rising: bool) -> Found
    requires { (e < 65536) × (n < 32768) }
    ensures { found result ≡ wrong_fields file.now n low high rising e }
{
    if size(file, e) != 2 * n {
        return Found::At(6 + 6 * e);
    }
    wrong_field(file, start(file, e), n, low, high, rising)
}

// The same of the body of a kind that may be missing.
fn wrong_body(file: &[u8], kind: usize, n: usize, low: usize, high: usize, rising: bool) -> Found
    requires { n < 32768 }
    ensures { found result ≡ and_then (entry_of file.now kind) (wrong_fields file.now n low high rising) }
{
    if let Found::At(e) = entry_of(file, kind) {
        return wrong_fields(file, e, n, low, high, rising);
    }
    Found::Nothing
}

// Lines 18 to 20: the first seat, the balances, and the weights, which rise.
pub fn check_options(file: &[u8]) -> Check
    ensures { refused result ≡ first_of (option_lines file.now) }
{
    let n = seats(file);
    first_of(
        18,
        wrong_body(file, 5, 1, 1, n, false),
        wrong_body(file, 6, n, 0, 50000, false),
        wrong_body(file, 7, 8, 1, 1000, true),
    )
}
