// The archive for C, Rust and Python: every call of `credits`, exported under its name with its contract, in the order of
// include/credits.h.
#![tactic(auto)]

ghost use Rattle.credits.specs.Calls.{ReadsAs, WritesAs, MarksAs, PlansAs, ListsAs, BettersAs, FulfilsAs, ForecastsAs};

use answers::{CreditsBook, MarkResult, ReadResult, WriteResult};
use choice::BetterResult;
use forecast::ForecastResult;
use reply::FulfilResult;

// The book and the sheet of a file.
#[unsafe(no_mangle)]
pub extern "C" fn credits_read(file: &[u8]) -> ReadResult
    ensures { ReadsAs file.now result }
{
    credits::credits_read(file)
}

// The file of a book, to the front of the buffer.
#[unsafe(no_mangle)]
pub extern "C" fn credits_write(book: CreditsBook, out: &mut [u8]) -> WriteResult
    ensures { WritesAs book out.old out.new result }
{
    credits::credits_write(book, out)
}

// The mark of a file's sheet; the chain of marks 2 and 3, to the front of the buffer.
#[unsafe(no_mangle)]
pub extern "C" fn credits_mark(file: &[u8], moves: &mut [u8]) -> MarkResult
    ensures { MarksAs file.now moves.old moves.new result }
{
    credits::credits_mark(file, moves)
}

// The planned file, to the front of the buffer.
#[unsafe(no_mangle)]
pub extern "C" fn credits_plan(file: &[u8], out: &mut [u8]) -> WriteResult
    ensures { PlansAs file.now out.old out.new result }
{
    credits::credits_plan(file, out)
}

// The text of a file and its mark, to the front of the buffer.
#[unsafe(no_mangle)]
pub extern "C" fn credits_listing(file: &[u8], out: &mut [u8]) -> WriteResult
    ensures { ListsAs file.now out.old out.new result }
{
    credits::credits_listing(file, out)
}

// Which of two files has the higher list, and where its sheet body lies.
#[unsafe(no_mangle)]
pub extern "C" fn credits_better(first: &[u8], second: &[u8]) -> BetterResult
    ensures { BettersAs first.now second.now result }
{
    credits::credits_better(first, second)
}

// A sheet with the wanted totals, its body to the front of the buffer, or a group of seats that wants more than it can get.
#[unsafe(no_mangle)]
pub extern "C" fn credits_fulfil(file: &[u8], wanted: &[u8], out: &mut [u8]) -> FulfilResult
    ensures { FulfilsAs file.now wanted.now out.old out.new result }
{
    credits::credits_fulfil(file, wanted, out)
}

// What a plan of a file will take: the length of the planned file, and the credits that will be placed in each window.
#[unsafe(no_mangle)]
pub extern "C" fn credits_forecast(file: &[u8]) -> ForecastResult
    ensures { ForecastsAs file.now result }
{
    credits::credits_forecast(file)
}
