// mark: reads a day file on standard input and writes its listing, or the one line that refuses it.
#![tactic(auto)]

use std::io;

fn main(rt: HostRuntime) -> io::Result<()> {
    output::mark(&mut rt.reader(), &mut io::writer(&rt))
}
