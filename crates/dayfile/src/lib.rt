// The day file: the types and the tests that reading and writing share. The format is defined in specs/, and its laws are in
// proofs/Theorems.antt.
#![tactic(auto)]

ghost use Rattle.std.specs.Prelude.{◌≡◌, not, [], ◌∷◌, ◌+◌, ◌<◌};
ghost use Rattle.model.specs.Lowest.{when, or_else};
ghost use Rattle.sheet.specs.Sheets.{grid_of};
ghost use Rattle.dayfile.specs.Table.{within, right_after, line, first_of, buffer_lines};
ghost use Rattle.dayfile.specs.Memory.{found, refused};

use sheet::{Grid, Sheet};

// The last kind that is known.
pub const KNOWN: usize = 7;

// The length of the longest file.
pub const LONGEST_FILE: usize = 3310;

// Where a line of the table of refusals holds.
#[derive(Clone, Copy)]
pub enum Found {
    At(usize),
    Nothing,
}

// A refusal, or that no line of the table turns the file away.
#[derive(Clone, Copy)]
pub enum Check {
    Refused { number: u8, at: usize },
    Sound,
}

// A refusal, or the length of the file that now stands at the front of the output buffer.
#[derive(Clone, Copy)]
pub enum Written {
    Refused { number: u8, at: usize },
    Whole { length: usize },
}

// A book in memory, but for its caps. The seat that comes first, counted from 1, or its absence; the balances carried over, or their
// absence; its own weights of classes 1 to 8, or their absence.
#[repr(C)]
#[derive(Clone, Copy)]
pub struct Book {
    pub seats: usize,
    pub windows: usize,
    pub classes: [u16; 32],
    pub supplies: [u16; 24],
    pub has_first: bool,
    pub first: u16,
    pub has_balances: bool,
    pub balances: [u16; 32],
    pub has_weights: bool,
    pub weights: [u16; 8],
}

// What a day file holds: a book with its caps, and a sheet or its absence. A field cannot be an array of arrays, so the caps are rows too.
// The grids stand first: a book and a flag end with bytes that are free, and what comes behind those is copied once more on its way into a
// day.
#[derive(Clone, Copy)]
pub struct Day {
    pub caps: Sheet,
    pub sheet: Sheet,
    pub book: Book,
    pub has_sheet: bool,
}

impl Day {
    // A book with these caps, and a sheet or its absence.
    pub fn new(book: Book, caps: Grid, has_sheet: bool, sheet: Grid) -> Day
        ensures { (result.book ≡ book) × (grid_of result.caps ≡ caps) × (result.has_sheet ≡ has_sheet) × (grid_of result.sheet ≡ sheet) }
    {
        Day {
            book,
            caps: Sheet::from_grid(caps),
            has_sheet,
            sheet: Sheet::from_grid(sheet),
        }
    }
}

// What the reader answers: a refusal and a day of zeros, or the day of the file.
#[derive(Clone, Copy)]
pub struct Reading {
    pub check: Check,
    pub day: Day,
}

// Low to high, both in.
pub fn within(low: usize, high: usize, x: usize) -> bool
    ensures { result ≡ within low high x }
{
    low <= x && x <= high
}

// Low to high and, where numbers are to rise, greater than the one before.
pub fn right_after(low: usize, high: usize, rising: bool, before: usize, x: usize) -> bool
    ensures { result ≡ right_after low high rising before x }
{
    (!rising | (before < x)) & within(low, high, x)
}

// An offset, where a number is not low to high.
pub fn outside_at(low: usize, high: usize, x: usize, at: usize) -> Found
    ensures { found result ≡ when (not (within low high x)) at }
{
    if within(low, high, x) {
        Found::Nothing
    } else {
        Found::At(at)
    }
}

// The refusal of the first of three lines that holds; they are numbered from `number` on. A line of the table stands alone, so all three
// can be looked up first.
pub fn first_of(number: u8, a: Found, b: Found, c: Found) -> Check
    requires { number < 100 }
    ensures { refused result ≡ first_of (line number (found a) ∷ line (number + 1) (found b) ∷ line (number + 2) (found c) ∷ []) }
{
    if let Found::At(p) = a {
        return Check::Refused { number, at: p };
    }
    if let Found::At(p) = b {
        return Check::Refused {
            number: number + 1,
            at: p,
        };
    }
    if let Found::At(p) = c {
        return Check::Refused {
            number: number + 2,
            at: p,
        };
    }
    Check::Sound
}

// The first of two checks that refuses.
pub fn first_check(a: Check, b: Check) -> Check
    ensures { refused result ≡ or_else (refused a) (refused b) }
{
    if let Check::Refused { number, at } = a {
        return Check::Refused { number, at };
    }
    b
}

// Line 16, of a buffer of `room` bytes where `need` are needed.
pub fn check_room(room: usize, need: usize) -> Check
    ensures { refused result ≡ first_of (buffer_lines room need) }
{
    if room < need {
        return Check::Refused {
            number: 16,
            at: need,
        };
    }
    Check::Sound
}
