// A test oracle: the papers' rules for small books, anew and in the plainest way. It shares no code with what it is held against.
//
// A book has up to 4 seats and 3 windows, a sheet 12 cells, 3 for each seat. Outside the book cells, caps and supplies are 0. Where no seat
// is named as the first, `first` is 0: no file that is taken holds a seat 0. Balances that are all 0 can stand in a file or be missing, so
// `has_balances` says which; where they are missing, the numbers are 0. So are own weights, and paper 01's are in force.
#![tactic(auto)]

pub mod idle;
pub mod marks;
pub mod memory;
pub mod numbers;
pub mod paths;
pub mod rules;
pub mod standard;
pub mod wanted;

#[derive(Clone, Copy)]
pub struct Small {
    pub seats: usize,
    pub windows: usize,
    pub classes: [u16; 32],
    pub supplies: [u16; 24],
    pub caps: [u16; 12],
    pub first: u16,
    pub has_balances: bool,
    pub balances: [u16; 32],
    pub has_weights: bool,
    pub weights: [u16; 8],
}

// Paper 01's weights, of classes 1 to 8.
pub const BUILT_IN: [u16; 8] = [1, 2, 3, 5, 8, 12, 20, 40];

// No small book has more sheets: 12 cells, and no cap above 3.
pub const SHEETS: u32 = 16777216;

// One more, or 0 again above the cap.
fn next_cell(x: u16, cap: u16) -> u16 {
    if x < cap { x + 1 } else { 0 }
}

// The next sheet within the caps, as a number is counted up: false after the last one, and the cells are 0 again.
pub fn next_sheet(cells: &mut [u16; 12], caps: &[u16; 12]) -> bool {
    for k in 0..12usize {
        let x = next_cell(cells[k], caps[k]);
        cells[k] = x;
        if x != 0 {
            return true;
        }
    }
    false
}
