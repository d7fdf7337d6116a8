// The better of two hand-ins: of two files with a lawful sheet of one book, the sheet body of the one whose list is higher.
#![tactic(auto)]

ghost use Rattle.std.specs.Prelude.{◌≡◌};
ghost use Rattle.std.specs.Prelude.{None};
ghost use Rattle.model.specs.Fair.{profile_of};
ghost use Rattle.sheet.specs.Sheets.{grid_of};
ghost use Rattle.dayfile.specs.Bounds.{Fit};
ghost use Rattle.dayfile.specs.Layout.{sheet_body};
ghost use Rattle.dayfile.specs.Table.{first_of, sheet_lines, same_book};
ghost use Rattle.dayfile.specs.Memory.{cells_in, day_book};
ghost use Rattle.better.specs.Choice.{Chooses, HandsBack};
ghost use Rattle.choice.specs.Numbers.{span_of, body_of};
ghost use Rattle.better.specs.Steps.{Compared};

use choice::{Choice, Span};
use dayfile::{Check, Day, Found};
use fields::{entry_of, size, start};
use lawful::check_lawful;
use pair::{same_book, second_is_higher};

// Line 17, and then the list that is higher, of two days with lawful sheets.
fn compare(first: Day, second: Day) -> Choice
    requires { Fit (day_book first) }
    ensures { Compared (same_book (day_book first) (day_book second))
        (profile_of (day_book first) (cells_in first.book (grid_of first.sheet)))
        (profile_of (day_book second) (cells_in second.book (grid_of second.sheet))) result }
{
    let book = first.book;
    if !same_book(book, first.caps, second.book, second.caps) {
        return Choice::Refused {
            file: 0,
            number: 17,
            at: 0,
        };
    }
    if second_is_higher(book, first.sheet, second.sheet) {
        return Choice::Second;
    }
    Choice::First
}

// Which of two files has the higher list; on equal lists the first.
pub fn choose(first: &[u8], second: &[u8]) -> Choice
    ensures { Chooses first.now second.now result }
{
    let one = reader::read(first);
    if let Check::Refused { number, at } = check_lawful(first, one) {
        return Choice::Refused {
            file: 1,
            number,
            at,
        };
    }
    let two = reader::read(second);
    if let Check::Refused { number, at } = check_lawful(second, two) {
        return Choice::Refused {
            file: 2,
            number,
            at,
        };
    }
    compare(one.day, two.day)
}

// Where the sheet body of a file lies.
pub fn sheet_span(file: &[u8]) -> Span
    ensures { result ≡ span_of file.now }
{
    if let Found::At(e) = entry_of(file, 4) {
        return Span {
            start: start(file, e),
            length: size(file, e),
        };
    }
    Span {
        start: 0,
        length: 0,
    }
}

// Where the body lies that is handed back; a file that is not chosen is not looked at.
pub fn body_span(choice: Choice, first: &[u8], second: &[u8]) -> Span
    ensures { result ≡ body_of choice first.now second.now }
{
    match choice {
        Choice::Refused {
            file: _,
            number: _,
            at: _,
        } => Span {
            start: 0,
            length: 0,
        },
        Choice::First => sheet_span(first),
        Choice::Second => sheet_span(second),
    }
}

// The sheet body of a file that holds a lawful sheet.
fn sheet_body(file: &[u8]) -> &[u8]
    requires { first_of (sheet_lines file.now) ≡ None }
    ensures { result.now ≡ sheet_body file.now }
{
    let span = sheet_span(file);
    let start = span.start;
    let end = start + span.length;
    &file[start..end]
}

// The sheet body of the better hand-in, as that part of the file it lies in; at a refusal an empty part.
pub fn better<'a>(first: &'a [u8], second: &'a [u8]) -> &'a [u8]
    ensures { HandsBack first.now second.now result.now }
{
    match choose(first, second) {
        Choice::First => sheet_body(first),
        Choice::Second => sheet_body(second),
        Choice::Refused {
            file: _,
            number: _,
            at: _,
        } => &first[0..0],
    }
}
