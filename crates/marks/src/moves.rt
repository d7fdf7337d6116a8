// The bytes of the exchange path that a mark reports.
ghost use Rattle.std.specs.Prelude.{◌≡◌, ◌*◌, ◌≤◌, length};
ghost use Rattle.model.specs.Marks.{move_bytes};
ghost use Rattle.dayfile.specs.Memory.{front};
ghost use Rattle.paths.specs.Paths.{moves_of};
ghost use Rattle.exchange.specs.Paths.{Writable};

use paths::Path;

// Each move as three bytes at the front of the buffer: window, giver, taker, counted from 1.
pub fn write_moves(out: &mut [u8], path: &Path)
    requires writable { Writable path.now }
    requires count_in_bounds { 3 * path.now.count ≤ length out.old }
    ensures { out.new ≡ front (move_bytes (moves_of path.now)) out.old }
{
    for (i, m) in path.moves().iter().enumerate() {
        let at = 3 * i;
        out[at] = m.window as u8 + 1;
        out[at + 1] = m.giver as u8 + 1;
        out[at + 2] = m.taker as u8 + 1;
    }
}
