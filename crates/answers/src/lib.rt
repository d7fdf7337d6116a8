// What the calls answer, in numbers. What crosses to C: #[repr(C)] structs of numbers, laid out as include/credits.h says.
#![tactic(auto)]

ghost use Rattle.std.specs.Prelude.{◌≡◌};
ghost use Rattle.dayfile.specs.Outcome.{answer};
ghost use Rattle.answers.specs.Answers.{told, numbers_of};
ghost use Rattle.answers.specs.Numbers.{flag, book_from, day_from, read_numbers, write_numbers, mark_numbers};
ghost use Rattle.answers.specs.Steps.{Small};

use dayfile::{Book, Check, Day, Reading, Written};
use sheet::Sheet;

// What the marker says: a refusal, or one of the four marks, with numbers counted from 1.
#[derive(Clone, Copy)]
pub enum Marking {
    Refused { number: u8, at: usize },
    Wasteful { window: usize, seat: usize },
    Improvable { moves: usize },
    Tied { moves: usize },
    Settled,
}

// An answer in numbers: a refusal's number and offset, or a mark and what comes with it. What an answer does not use is 0.
#[derive(Clone, Copy)]
pub struct Numbers {
    pub refusal: u8,
    pub offset: usize,
    pub mark: u8,
    pub window: usize,
    pub seat: usize,
    pub moves: usize,
}

// A book with its caps, a sheet unless has_sheet is 0, a first seat unless has_first is 0, balances unless has_balances is 0, and weights
// of its own unless has_weights is 0. Later fields go to its end, so that offsets stay.
#[repr(C)]
#[derive(Clone, Copy)]
pub struct CreditsBook {
    pub seats: usize,
    pub windows: usize,
    pub classes: [u16; 32],
    pub supplies: [u16; 24],
    pub caps: Sheet,
    pub has_sheet: u32,
    pub sheet: Sheet,
    pub has_first: u32,
    pub first: u16,
    pub has_balances: u32,
    pub balances: [u16; 32],
    pub has_weights: u32,
    pub weights: [u16; 8],
}

// A refusal, or a book.
#[repr(C)]
#[derive(Clone, Copy)]
pub struct ReadResult {
    pub refusal: u32,
    pub offset: usize,
    pub book: CreditsBook,
}

// A refusal, or the length of what now stands at the front of the output buffer.
#[repr(C)]
#[derive(Clone, Copy)]
pub struct WriteResult {
    pub refusal: u32,
    pub offset: usize,
    pub length: usize,
}

// A refusal, or a mark.
#[repr(C)]
#[derive(Clone, Copy)]
pub struct MarkResult {
    pub refusal: u32,
    pub offset: usize,
    pub mark: u32,
    pub window: u32,
    pub seat: u32,
    pub moves: u32,
}

impl Numbers {
    // The numbers of a mark.
    fn of_mark(mark: u8, window: usize, seat: usize, moves: usize) -> Numbers
        ensures { result ≡ numbers_of (answer (record { mark = mark; window = window; seat = seat; moves = moves })) }
    {
        Numbers {
            refusal: 0,
            offset: 0,
            mark,
            window,
            seat,
            moves,
        }
    }
}

impl Marking {
    pub fn numbers(self) -> Numbers
        ensures { result ≡ numbers_of (told self) }
    {
        match self {
            Marking::Refused { number, at } => Numbers {
                refusal: number,
                offset: at,
                mark: 0,
                window: 0,
                seat: 0,
                moves: 0,
            },
            Marking::Wasteful { window, seat } => Numbers::of_mark(1, window, seat, 0),
            Marking::Improvable { moves } => Numbers::of_mark(2, 0, 0, moves),
            Marking::Tied { moves } => Numbers::of_mark(3, 0, 0, moves),
            Marking::Settled => Numbers::of_mark(4, 0, 0, 0),
        }
    }
}

impl ReadResult {
    // What the reader says, in numbers.
    pub fn of(r: Reading) -> ReadResult
        ensures { result ≡ read_numbers r }
    {
        let check = r.check;
        let day = r.day;
        let book = CreditsBook::of(day);
        match check {
            Check::Refused { number, at } => ReadResult {
                refusal: number as u32,
                offset: at,
                book,
            },
            Check::Sound => ReadResult {
                refusal: 0,
                offset: 0,
                book,
            },
        }
    }
}

impl WriteResult {
    // What a call wrote, in numbers.
    pub fn of(w: Written) -> WriteResult
        ensures { result ≡ write_numbers w }
    {
        match w {
            Written::Refused { number, at } => WriteResult {
                refusal: number as u32,
                offset: at,
                length: 0,
            },
            Written::Whole { length } => WriteResult {
                refusal: 0,
                offset: 0,
                length,
            },
        }
    }
}

impl MarkResult {
    // What the marker says, in numbers.
    pub fn of(m: Marking) -> MarkResult
        requires { Small (told m) }
        ensures { result ≡ mark_numbers m }
    {
        let n = m.numbers();
        MarkResult {
            refusal: n.refusal as u32,
            offset: n.offset,
            mark: n.mark as u32,
            window: n.window as u32,
            seat: n.seat as u32,
            moves: n.moves as u32,
        }
    }
}

// 1 for what is there.
fn flag(there: bool) -> u32
    ensures { result ≡ flag there }
{
    if there { 1 } else { 0 }
}

impl CreditsBook {
    // A day as the flat struct.
    pub fn of(day: Day) -> CreditsBook
        ensures { result ≡ book_from day }
    {
        let book = day.book;
        let classes = book.classes;
        let supplies = book.supplies;
        let caps = day.caps;
        let sheet = day.sheet;
        let has_sheet = flag(day.has_sheet);
        let has_first = flag(book.has_first);
        let has_balances = flag(book.has_balances);
        let balances = book.balances;
        let has_weights = flag(book.has_weights);
        let weights = book.weights;
        CreditsBook {
            seats: book.seats,
            windows: book.windows,
            classes,
            supplies,
            caps,
            has_sheet,
            sheet,
            has_first,
            first: book.first,
            has_balances,
            balances,
            has_weights,
            weights,
        }
    }

    // The day that was handed in.
    pub fn day(self) -> Day
        ensures { result ≡ day_from self }
    {
        let classes = self.classes;
        let supplies = self.supplies;
        let balances = self.balances;
        let weights = self.weights;
        let caps = self.caps;
        let sheet = self.sheet;
        let book = Book {
            seats: self.seats,
            windows: self.windows,
            classes,
            supplies,
            has_first: self.has_first != 0,
            first: self.first,
            has_balances: self.has_balances != 0,
            balances,
            has_weights: self.has_weights != 0,
            weights,
        };
        Day {
            book,
            caps,
            has_sheet: self.has_sheet != 0,
            sheet,
        }
    }
}
