// What a plan of a day file will take: the length of the planned file, and the credits that will be placed in each window.
#![tactic(auto)]

ghost use Rattle.std.specs.Prelude.{◌≡◌, min, ◌≤◌, replicate};
ghost use Rattle.dayfile.specs.Table.{refuse};
ghost use Rattle.dayfile.specs.Outcome.{turned_away};
ghost use Rattle.dayfile.specs.Memory.{book_in};
ghost use Rattle.forecast.specs.Forecasting.{figures_of, foretold, Forecasts};
ghost use Rattle.forecast.specs.Numbers.{forecast_numbers};

use dayfile::{Book, Check};
use idle::check_idle;
use sheet::{Grid, placed};
use store::file_length;

// A refusal and zeros, or the two figures; of 24 windows those that the book does not have are 0.
#[derive(Clone, Copy)]
pub struct Foretold {
    pub check: Check,
    pub length: usize,
    pub placed: [u32; 24],
}

// The same for C: a #[repr(C)] struct of numbers, laid out as include/credits.h says.
#[repr(C)]
#[derive(Clone, Copy)]
pub struct ForecastResult {
    pub refusal: u32,
    pub offset: usize,
    pub length: usize,
    pub placed: [u32; 24],
}

// The lesser of a window's supply and its caps added together.
fn lesser(supply: u16, caps: u32) -> u32
    ensures { result ≡ min supply caps }
{
    let supply = supply as u32;
    if supply < caps { supply } else { caps }
}

// The credits that will be placed in each window of a book that is in memory.
fn to_place(book: Book, caps: &Grid) -> [u32; 24]
    requires { (book.seats ≤ 32) × (book.windows ≤ 24) }
    ensures { result ≡ (figures_of (book_in book caps.now)).placed }
{
    let windows = book.windows;
    let supplies = book.supplies;
    let sums = placed(caps, book.seats, windows);
    let mut credits = [0u32; 24];
    for w in 0..windows {
        credits[w] = lesser(supplies[w], sums[w]);
    }
    credits
}

// A refusal, and zeros.
fn turned_away(number: u8, at: usize) -> Foretold
    ensures { (foretold result ≡ turned_away (refuse number at)) × ((result.length ≡ 0) × (result.placed ≡ replicate 24 0)) }
{
    Foretold {
        check: Check::Refused { number, at },
        length: 0,
        placed: [0u32; 24],
    }
}

// What a plan of this file will take, or the refusal.
pub fn forecast(file: &[u8]) -> Foretold
    ensures { Forecasts file.now result }
{
    let reading = reader::read(file);
    let check = reading.check;
    if let Check::Refused { number, at } = check {
        return turned_away(number, at);
    }
    let book = reading.day.book;
    let caps = reading.day.caps.to_grid();
    if let Check::Refused { number, at } = check_idle(file, book, &caps) {
        return turned_away(number, at);
    }
    let length = file_length(book, true);
    let placed = to_place(book, &caps);
    Foretold {
        check: Check::Sound,
        length,
        placed,
    }
}

impl ForecastResult {
    // A forecast in numbers.
    pub fn of(forecast: Foretold) -> ForecastResult
        ensures { result ≡ forecast_numbers forecast }
    {
        let check = forecast.check;
        let length = forecast.length;
        let placed = forecast.placed;
        match check {
            Check::Refused { number, at } => ForecastResult {
                refusal: number as u32,
                offset: at,
                length: 0,
                placed: [0u32; 24],
            },
            Check::Sound => ForecastResult {
                refusal: 0,
                offset: 0,
                length,
                placed,
            },
        }
    }
}
