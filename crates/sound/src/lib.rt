// Whether a day file is sound: lines 1 to 12 of the table, and those of the kinds that may be missing.
#![tactic(auto)]

ghost use Rattle.std.specs.Prelude.{◌≡◌};
ghost use Rattle.dayfile.specs.Table.{first_of, read_lines};
ghost use Rattle.dayfile.specs.Memory.{refused};

use contents::check_contents;
use dayfile::Check;
use lengths::check_lengths;
use options::check_options;
use values::check_values;

pub mod contents;
pub mod lengths;
pub mod options;

// The refusal of the first line that holds, down the table: contents, lengths, values, and the kinds that may be missing.
pub fn check(file: &[u8]) -> Check
    ensures { refused result ≡ first_of (read_lines file.now) }
{
    if let Check::Refused { number, at } = check_contents(file) {
        return Check::Refused { number, at };
    }
    if let Check::Refused { number, at } = check_lengths(file) {
        return Check::Refused { number, at };
    }
    if let Check::Refused { number, at } = check_values(file) {
        return Check::Refused { number, at };
    }
    check_options(file)
}
