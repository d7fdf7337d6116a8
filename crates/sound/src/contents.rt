// Lines 1 to 6: the table of contents.
ghost use Rattle.std.specs.Prelude.{◌≡◌, take, drop};
ghost use Rattle.dayfile.specs.Table.{line1, line2, line3, line6, first_of, contents_lines};
ghost use Rattle.dayfile.specs.Memory.{found, refused};

use dayfile::{Check, Found, KNOWN, first_of, outside_at};
use entries::{Test, wrong_entry};
use fields::{count, ends};

// Line 1: under 2 bytes.
fn too_short(file: &[u8]) -> Found
    ensures { found result ≡ line1 file.now }
{
    if file.len() < 2 {
        Found::At(file.len())
    } else {
        Found::Nothing
    }
}

// Line 2: entries not 3 to 7.
fn wrong_count(file: &[u8]) -> Found
    ensures { found result ≡ line2 file.now }
{
    outside_at(3, KNOWN, count(file), 0)
}

// Line 3: file ends within the contents.
fn contents_cut(file: &[u8]) -> Found
    ensures { found result ≡ line3 file.now }
{
    if file.len() < 2 + 6 * count(file) {
        Found::At(file.len())
    } else {
        Found::Nothing
    }
}

// Line 6: last body does not end at the file's end.
fn wrong_end(file: &[u8]) -> Found
    ensures { found result ≡ line6 file.now }
{
    if ends(file, count(file)) == file.len() {
        Found::Nothing
    } else {
        Found::At(file.len())
    }
}

// Lines 1 to 3.
fn check_header(file: &[u8]) -> Check
    ensures { refused result ≡ first_of (take 3 (contents_lines file.now)) }
{
    first_of(1, too_short(file), wrong_count(file), contents_cut(file))
}

// Lines 4 to 6: kinds not 1, 2, 3, then rising and known, at that kind; start not where the part before ends, at that start; the last
// body's end.
fn check_entries(file: &[u8]) -> Check
    ensures { refused result ≡ first_of (drop 3 (contents_lines file.now)) }
{
    let kinds = wrong_entry(file, Test::Kinds, 2);
    let starts = wrong_entry(file, Test::Starts, 4);
    first_of(4, kinds, starts, wrong_end(file))
}

// Lines 1 to 6.
pub fn check_contents(file: &[u8]) -> Check
    ensures { refused result ≡ first_of (contents_lines file.now) }
{
    if let Check::Refused { number, at } = check_header(file) {
        return Check::Refused { number, at };
    }
    check_entries(file)
}
