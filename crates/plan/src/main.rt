// plan: reads a day file on standard input and writes it with its planned sheet, or the one line that refuses it.
#![tactic(auto)]

use std::io;

fn main(rt: HostRuntime) -> io::Result<()> {
    output::plan(&mut rt.reader(), &mut io::writer(&rt))
}
