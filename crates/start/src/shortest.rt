// Shortest augmenting paths, breadth first: from a receiver to each seat that it reaches in the residual graph.
ghost use Rattle.std.specs.Prelude.{◌<◌, ◌≤◌};
ghost use Rattle.start.specs.Windows.{InGrid};

use crate::residual::{Hop, Residual};
use masks::{full, insert, intersect, lowest, minus, remove, remove_lowest, union};

impl Residual {
    // The windows of a set, from the first one on where a seat of the front can take.
    fn skip_shut(&self, windows: u32, front: u32) -> u32
        requires { InGrid windows }
        ensures { InGrid result }
    {
        let mut rest = windows;
        for _ in 0..32u32 {
            if rest == 0 || intersect(self.takers[lowest(rest)], front) != 0 {
                return rest;
            }
            rest = remove_lowest(rest);
        }
        rest
    }

    // Layer by layer: each window that a seat of the last layers can take in adds all who give there. A turn notes one seat that was found,
    // or opens one window, or goes on to the next layer; each layer but the last opens a window, so the turns suffice. Returns the seats
    // that are reached, the receiver among them.
    pub(crate) fn grow(&mut self, windows: usize, receiver: usize) -> u32
        requires { (windows ≤ 24) × (receiver < 32) }
    {
        let mut reached = insert(0, receiver);
        let mut front = reached;
        let mut shut = full(windows);
        let mut rest = shut;
        let mut found = 0;
        let mut window = 0;
        let mut taker = 0;
        for _ in 0..128u32 {
            if found != 0 {
                self.hops[lowest(found)] = Hop {
                    window: window as u8,
                    taker: taker as u8,
                };
                found = remove_lowest(found);
            } else if rest != 0 {
                window = lowest(rest);
                rest = remove_lowest(rest);
                let ready = intersect(self.takers[window], front);
                if ready != 0 {
                    taker = lowest(ready);
                    found = minus(self.givers[window], reached);
                    reached = union(reached, found);
                    shut = remove(shut, window);
                } else {
                    rest = self.skip_shut(rest, front);
                }
            } else if reached != front {
                front = reached;
                rest = shut;
            } else {
                return reached;
            }
        }
        reached
    }
}
