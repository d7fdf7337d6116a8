// What the better of two answers, and what of it crosses to C: a #[repr(C)] struct of numbers, laid out as include/credits.h says.
#![tactic(auto)]

ghost use Rattle.std.specs.Prelude.{◌≡◌};
ghost use Rattle.choice.specs.Numbers.{better_numbers};

// A refusal and the file that it is of, 0 where it is of both; or which of the two is chosen.
#[derive(Clone, Copy)]
pub enum Choice {
    Refused { file: u8, number: u8, at: usize },
    First,
    Second,
}

// Where a sheet body lies in its file; both are 0 where there is none.
#[derive(Clone, Copy)]
pub struct Span {
    pub start: usize,
    pub length: usize,
}

// The same for C: a refusal and its file, or the file that is chosen, 1 or 2, and where its sheet body lies.
#[repr(C)]
#[derive(Clone, Copy)]
pub struct BetterResult {
    pub refusal: u32,
    pub offset: usize,
    pub file: u32,
    pub start: usize,
    pub length: usize,
}

impl BetterResult {
    // A choice in numbers, with where the body lies that goes with it.
    pub fn of(choice: Choice, body: Span) -> BetterResult
        ensures { result ≡ better_numbers choice body }
    {
        let start = body.start;
        let length = body.length;
        match choice {
            Choice::Refused { file, number, at } => BetterResult {
                refusal: number as u32,
                offset: at,
                file: file as u32,
                start,
                length,
            },
            Choice::First => BetterResult {
                refusal: 0,
                offset: 0,
                file: 1,
                start,
                length,
            },
            Choice::Second => BetterResult {
                refusal: 0,
                offset: 0,
                file: 2,
                start,
                length,
            },
        }
    }
}
