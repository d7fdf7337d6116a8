// What the call for wanted totals replies, and what of it crosses to C: a #[repr(C)] struct of numbers, laid out as include/credits.h says.
#![tactic(auto)]

ghost use Rattle.std.specs.Prelude.{◌≡◌};
ghost use Rattle.reply.specs.Numbers.{fulfil_numbers};

// A refusal; the length of the sheet body that now stands at the front of the output buffer; or a group of seats, as a mask.
#[derive(Clone, Copy)]
pub enum Reply {
    Refused { number: u8, at: usize },
    Sheet { length: usize },
    Group { seats: u32 },
}

// The same for C: a refusal, the length of a sheet body, or a group, of which bit i is seat i + 1. What a reply does not use is 0.
#[repr(C)]
#[derive(Clone, Copy)]
pub struct FulfilResult {
    pub refusal: u32,
    pub offset: usize,
    pub length: usize,
    pub group: u32,
}

impl FulfilResult {
    // A reply in numbers.
    pub fn of(reply: Reply) -> FulfilResult
        ensures { result ≡ fulfil_numbers reply }
    {
        match reply {
            Reply::Refused { number, at } => FulfilResult {
                refusal: number as u32,
                offset: at,
                length: 0,
                group: 0,
            },
            Reply::Sheet { length } => FulfilResult {
                refusal: 0,
                offset: 0,
                length,
                group: 0,
            },
            Reply::Group { seats } => FulfilResult {
                refusal: 0,
                offset: 0,
                length: 0,
                group: seats,
            },
        }
    }
}
