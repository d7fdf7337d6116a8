// The library for C, Rust and Python: every public call, in the order of include/credits.h; `credits_c` exports them. What crosses is
// numbers, slices and structs of numbers. The contracts are in specs/Calls.antt.
#![tactic(auto)]

ghost use Rattle.credits.specs.Calls.{ReadsAs, WritesAs, MarksAs, PlansAs, ListsAs, BettersAs, FulfilsAs, ForecastsAs};

use answers::{CreditsBook, MarkResult, ReadResult, WriteResult};
use better::{body_span, choose};
use choice::BetterResult;
use forecast::ForecastResult;
use reply::FulfilResult;

// The book and the sheet of a file.
pub fn credits_read(file: &[u8]) -> ReadResult
    ensures { ReadsAs file.now result }
{
    ReadResult::of(reader::read(file))
}

// The file of a book, to the front of the buffer.
pub fn credits_write(book: CreditsBook, out: &mut [u8]) -> WriteResult
    ensures { WritesAs book out.old out.new result }
{
    WriteResult::of(writer::write(out, book.day()))
}

// The mark of a file's sheet; the chain of marks 2 and 3, to the front of the buffer.
pub fn credits_mark(file: &[u8], moves: &mut [u8]) -> MarkResult
    ensures { MarksAs file.now moves.old moves.new result }
{
    MarkResult::of(marker::mark(file, moves))
}

// The planned file, to the front of the buffer.
pub fn credits_plan(file: &[u8], out: &mut [u8]) -> WriteResult
    ensures { PlansAs file.now out.old out.new result }
{
    WriteResult::of(planner::plan(file, out))
}

// The text of a file and its mark, to the front of the buffer.
pub fn credits_listing(file: &[u8], out: &mut [u8]) -> WriteResult
    ensures { ListsAs file.now out.old out.new result }
{
    WriteResult::of(listing::listing(file, out))
}

// Which of two files has the higher list, and where its sheet body lies.
pub fn credits_better(first: &[u8], second: &[u8]) -> BetterResult
    ensures { BettersAs first.now second.now result }
{
    let choice = choose(first, second);
    BetterResult::of(choice, body_span(choice, first, second))
}

// A sheet with the wanted totals, its body to the front of the buffer, or a group of seats that wants more than it can get.
pub fn credits_fulfil(file: &[u8], wanted: &[u8], out: &mut [u8]) -> FulfilResult
    ensures { FulfilsAs file.now wanted.now out.old out.new result }
{
    FulfilResult::of(fulfil::fulfil(file, wanted, out))
}

// What a plan of a file will take: the length of the planned file, and the credits that will be placed in each window.
pub fn credits_forecast(file: &[u8]) -> ForecastResult
    ensures { ForecastsAs file.now result }
{
    ForecastResult::of(forecast::forecast(file))
}
