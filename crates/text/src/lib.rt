// Text at the front of an output buffer: bytes, numbers in decimal, and times of the day.
#![tactic(auto)]

ghost use Rattle.std.specs.Prelude.{◌≡◌, ◌<◌, length};
ghost use Rattle.text.specs.Text.{decimal, four_digits, opening_time};
ghost use Rattle.text.specs.Printing.{Room, Prints};

use itoa::Buffer;

// When a window opens, counted from 0: hours and minutes read as one number.
#[tactic(auto, unfolding(crate::specs::Text::opening_time))]
pub fn opening_time(window: usize) -> u16
    requires { window < 24 }
    ensures { result ≡ opening_time window }
{
    let minutes = 480 + 25 * window;
    (minutes / 60 * 100 + minutes % 60) as u16
}

// Stores a text in a part of a buffer that is as long. By `copy_from_slice` the archive for C would ask for `memmove`.
fn store(out: &mut [u8], text: &[u8])
    requires { length out.old ≡ length text.now }
    ensures { out.new ≡ text.now }
{
    for i in 0..text.len() {
        out[i] = text[i];
    }
}

// Prints to the front of a buffer. What is printed ends at `at`.
#[derive(Drop)]
pub struct Printer<'a> {
    out: &'a mut [u8],
    at: usize,
}

impl<'a> Printer<'a> {
    pub fn new(out: &'a mut [u8]) -> Printer<'a>
        ensures same_buffer { result.out.ghost_name ≡ out.entry.ghost_name }
        ensures kept { result.out.now ≡ out.old }
        ensures nothing { result.at ≡ 0 }
    {
        Printer { out, at: 0 }
    }

    // How much is printed.
    pub fn len(&self) -> usize
        ensures { result ≡ self.now.at }
    {
        self.at
    }

    #[tactic(auto, using(std::proofs::lemmas::Slice::overwrites))]
    pub fn bytes(&mut self, text: &[u8])
        requires { Room self.old text.now }
        ensures { Prints self.old text.now self.new }
    {
        let end = self.at + text.len();
        store(&mut self.out[self.at..end], text);
        self.at = end;
    }

    // A number in decimal, without leading zeros.
    #[tactic(auto, using(crate::proofs::Digits::decimal_is))]
    pub fn decimal(&mut self, n: usize)
        requires { Room self.old (decimal n) }
        ensures { Prints self.old (decimal n) self.new }
    {
        self.bytes(Buffer::new().format(n).as_bytes());
    }

    // A time of the day in four digits.
    #[tactic(auto, unfolding(crate::specs::Text::four_digits, crate::specs::Text::digits))]
    pub fn four_digits(&mut self, n: u16)
        requires { Room self.old (four_digits n) }
        ensures { Prints self.old (four_digits n) self.new }
    {
        let digits = [n / 1000, n / 100, n / 10, n].map(|d| b'0' + (d % 10) as u8);
        self.bytes(&digits);
    }
}
