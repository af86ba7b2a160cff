// The dead cells among those that hang on a cell which has lost its last root. It needs no scratch and writes nothing.
#![tactic(auto)]

mod rest;
mod support;

ghost use Rattle.std.specs.Prelude.{◌≡◌, false};
ghost use Rattle.machine.specs.Facts.{TableShape};
ghost use Rattle.machine.specs.ShortWay.{stays_root};
ghost use Rattle.suspects.specs.Dead.{most_suspects, Finds};

use arrayvec::ArrayVec;
use walks::{MOST, Walk};

// The most suspects that are looked at one by one.
fn most_of(c: u16) -> usize
    ensures { result ≡ most_suspects c }
{
    (4 + usize::from(c) / 16).min(MOST)
}

// The dead cells, ascending, or None where there are too many suspects.
pub fn dead_of(table: &[u16], w: u16) -> Option<ArrayVec<u16, MOST>>
    requires { TableShape table.now × (stays_root table.now w ≡ false) }
    ensures { Finds table.now w result }
{
    let most = most_of(cells::capacity_of(table));
    let mut suspects = Walk::new();
    suspects.start(w - 1);
    suspects.walk(table, most)?;
    let kept = support::kept_of(table, &suspects, most);
    Some(rest::rest(&suspects, &kept))
}
