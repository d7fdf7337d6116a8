// What a plan was forecast to take, held against what the planner then wrote.
use forecast::ForecastResult;
use say::{Reply, front, numbers};

// So many fields together: the first stands at a place, and each other one so many places further.
fn together(bytes: &[u8], first: usize, step: usize, n: u16) -> u32 {
    let mut place = first;
    let mut sum = 0u32;
    for _ in 0..n {
        sum = std::num::wrapping_add_u32(sum, numbers::at(bytes, place) as u32);
        place = std::num::wrapping_add_usize(place, step);
    }
    sum
}

// A window's cells together, in the bytes of a planned file, whose fourth entry is the sheet's; 0 where it has no such window, as a file of
// no bytes has none.
fn placed_in(planned: &[u8], window: usize) -> u32 {
    let windows = numbers::wide(planned, 6) / 2;
    if windows <= window {
        return 0;
    }
    let first = std::num::wrapping_add_usize(numbers::wide(planned, 11) / 2, window);
    together(planned, first, windows, numbers::at(planned, 3) / 2)
}

fn rightly_placed(placed: [u32; 24], planned: &[u8]) -> bool {
    for w in 0..24usize {
        if placed[w] != placed_in(planned, w) {
            return false;
        }
    }
    true
}

// Whether the planner's answer to a file, and what it left in the buffer, is as it was forecast: the same refusal and no other number; or a
// file of that length, in which each window's cells are as many. Line 16 asks for that length.
pub fn foreseen(file: &[u8], answer: Reply, out: &[u8]) -> bool {
    let r = ForecastResult::of(forecast::forecast(file));
    if answer.number == 16 {
        return (r.refusal == 0) & (r.offset == 0) & (r.length == answer.at);
    }
    let placed = r.placed;
    (r.refusal == answer.number as u32)
        & (r.offset == answer.at)
        & (r.length == answer.length)
        & rightly_placed(placed, front(out, answer.length))
}
