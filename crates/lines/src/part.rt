// The parts of a line.
ghost use Rattle.std.specs.Prelude.{◌<◌};
ghost use Rattle.text.specs.Printing.{Room, Prints};
ghost use Rattle.lines.specs.Lines.{labelled, labelled_last, opens};

use text::Printer;

// A label and a number.
#[tactic(auto, using(text::proofs::Printing::printing), unfolding(crate::specs::Lines::labelled))]
pub(crate) fn put_field(to: &mut Printer, label: &[u8], n: usize)
    requires { Room to.old (labelled label.now n) }
    ensures { Prints to.old (labelled label.now n) to.new }
{
    to.bytes(label);
    to.decimal(n);
}

// A label, a number and the end of the line.
#[tactic(auto, using(text::proofs::Printing::printing), unfolding(crate::specs::Lines::labelled_last))]
pub fn put_last_field(to: &mut Printer, label: &[u8], n: usize)
    requires { Room to.old (labelled_last label.now n) }
    ensures { Prints to.old (labelled_last label.now n) to.new }
{
    put_field(to, label, n);
    to.bytes(b"\n");
}

// When a window opens.
#[tactic(auto, using(text::proofs::Printing::printing), unfolding(crate::specs::Lines::opens))]
pub(crate) fn put_opens(to: &mut Printer, window: usize)
    requires window_bound { window < 24 }
    requires room { Room to.old (opens window) }
    ensures { Prints to.old (opens window) to.new }
{
    to.bytes(b" opens ");
    to.four_digits(text::opening_time(window));
}
