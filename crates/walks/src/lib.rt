// A walk from some cells through cells that are no roots, as a list of at most 64 cells. It needs no scratch and no pass over the table.
#![tactic(auto)]

ghost use Rattle.std.specs.Prelude.{◌≡◌, ◌==◌, [], ◌∷◌, ◌++◌, ◌<◌, ◌≤◌, length, position};
ghost use Rattle.machine.specs.Facts.{TableShape};
ghost use Rattle.machine.specs.Packets.{contains};
ghost use Rattle.walks.specs.Walk.{most_walked, Places, Starts, Walks};
ghost use Rattle.walks.specs.Tally.{tally_of, tally, counted, met, followed, Ready, Holds, Followable};

use arrayvec::ArrayVec;
use marks::roots::rooted;
use questions::is_cell;
use std::marker::Model;

// The most cells that a walk meets.
pub const MOST: usize = 64;

// A cell that a walk has met, and how many pointers to it are counted so far.
#[derive(Clone, Copy, Default)]
pub struct Met {
    pub cell: u16,
    pub pointers: u16,
}

// The cells met so far, each once, and a filter: it is set at each of them, at its index modulo 64, and where it is not set no search is needed.
#[derive(Drop)]
pub struct Walk {
    list: ArrayVec<Met, MOST>,
    seen: [bool; MOST],
}

impl Model for Walk {
    ghost use Rattle.std.specs.Prelude.{◌≡◌, length};
    ghost use Rattle.walks.specs.Walk.{most_walked, Filtered};
    ghost use Rattle.walks.specs.Tally.{Tally, tally};

    ghost Value = { Tally };

    ghost view = { λ w. tally w.list.items };

    ghost invariant = { λ w. (length w.seen ≡ most_walked) × Filtered (tally w.list.items).cells w.seen };
}

// The cell's place in the list.
fn place_in(list: &[Met], cell: u16) -> Option<usize>
    ensures { result ≡ position (λ m. m.cell == cell) list.now }
{
    list.iter().position(|met| met.cell == cell)
}

impl Walk {
    pub fn new() -> Walk
        ensures { result ≡ tally_of [] [] }
    {
        Walk {
            list: ArrayVec::new(),
            seen: [false; MOST],
        }
    }

    // The cells in the order in which they were met.
    pub fn list(&self) -> &[Met]
        ensures { tally result.now ≡ self.now }
    {
        self.list.as_slice()
    }

    fn len(&self) -> usize
        ensures { result ≡ length self.now.cells }
    {
        self.list.len()
    }

    fn put(&mut self, met: Met)
        requires { length self.old.cells < most_walked }
        ensures { self.new ≡ tally_of (self.old.cells ++ met.cell ∷ []) (self.old.counts ++ met.pointers ∷ []) }
    {
        self.seen[usize::from(met.cell) % MOST] = true;
        self.list.push(met);
    }

    // A cell to begin at put behind the others.
    pub fn start(&mut self, cell: u16)
        requires { length self.old.cells < most_walked }
        ensures { self.new ≡ tally_of (self.old.cells ++ cell ∷ []) (self.old.counts ++ 0 ∷ []) }
    {
        self.put(Met { cell, pointers: 0 });
    }

    // Where the cell stands in the list.
    pub fn place(&self, cell: u16) -> Option<usize>
        ensures { Places self.now.cells cell result }
    {
        if self.seen[usize::from(cell) % MOST] {
            place_in(self.list.as_slice(), cell)
        } else {
            None
        }
    }

    pub fn contains(&self, cell: u16) -> bool
        ensures { result ≡ contains self.now.cells cell }
    {
        self.place(cell).is_some()
    }

    // One pointer more to a cell that is no root. It gives up where the list would have more than `most` cells.
    fn count(&mut self, most: usize, cell: u16) -> Option<()>
        requires { Ready most 1 self.old }
        ensures { Holds most (counted cell self.old) self.new result }
    {
        if let Some(place) = self.place(cell) {
            self.list.as_mut_slice()[place].pointers += 1;
            return Some(());
        }
        if most <= self.len() {
            return None;
        }
        self.put(Met { cell, pointers: 1 });
        Some(())
    }

    // A field's word met.
    fn meet(&mut self, table: &[u16], most: usize, w: u16) -> Option<()>
        requires { TableShape table.now × Ready most 1 self.old }
        ensures { Holds most (met table.now w self.old) self.new result }
    {
        if is_cell(cells::capacity_of(table), w) {
            if rooted(table, usize::from(w - 1)) {
                return Some(());
            }
            return self.count(most, w - 1);
        }
        Some(())
    }

    // Both fields of the list's cell at place i met.
    fn follow(&mut self, table: &[u16], most: usize, i: usize) -> Option<()>
        requires { TableShape table.now × Followable table.now most i self.old }
        ensures { Holds most (followed table.now i self.old) self.new result }
    {
        let index = usize::from(self.list.as_slice()[i].cell);
        self.meet(table, most, cells::field(table, index, cells::LEFT))?;
        self.meet(table, most, cells::field(table, index, cells::RIGHT))
    }

    // The list closed under what its cells lead on to, each with the number of pointers to it from the list. It gives up where the list would have
    // more than `most` cells.
    pub fn walk(&mut self, table: &[u16], most: usize) -> Option<()>
        requires { Starts table.now self.old.cells self.old.counts most }
        ensures { Walks table.now most self.old.cells self.new.cells self.new.counts result }
    {
        let mut i: usize = 0;
        // Kept: the list grows while it is followed, so that no range and no iterator has its end.
        while i < self.len() {
            self.follow(table, most, i)?;
            i += 1;
        }
        Some(())
    }
}
