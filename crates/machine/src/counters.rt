// The counters of a cell: three types over a word of 16 bits, so that no count is taken for one of another sort. What they do is stated once.
ghost use Rattle.std.specs.Prelude.{◌≡◌, ℕ, ◌-◌, refl};
ghost use Rattle.machine.specs.Counters.{Raised};
ghost use Rattle.machine.specs.Words.{ceiling};
ghost use Rattle.machine.specs.Packets.{Counter as Sort, root, cell, name};
ghost use Rattle.machine.specs.Step.{counter_word};

pub trait Counter: Copy {
    // Which of the machine's counters it is, and the number that it holds.
    ghost sort: { Sort };

    ghost value: { Self → ℕ };

    // Where it stands in its cell.
    const WORD: usize;

    ghost WORD: { ℕ };

    fn of(n: u16) -> Self
        ensures { value result ≡ n };

    fn get(self) -> u16
        ensures { result ≡ value self };

    ghost stands: { WORD ≡ counter_word sort };

    final fn raised(self, n: u16) -> Self
        ensures { Raised (value self) n (value result) }
    {
        match self.get().checked_add(n) {
            Some(sum) => Self::of(sum),
            None => self,
        }
    }

    final fn lowered(self, n: u16) -> Self
        ensures { value result ≡ value self - n }
    {
        Self::of(self.get().saturating_sub(n))
    }
}

// A counter that packets change: what it counts stays at a ceiling or below.
pub trait Limited: Counter {
    const CEILING: u16;

    ghost CEILING: { ℕ };

    ghost ceiling_law: { CEILING ≡ ceiling };
}

// How many pointers to a cell row programs hold.
#[derive(Clone, Copy)]
pub struct RootCount(pub u16);

impl Counter for RootCount {
    ghost sort = { root };

    ghost value = { λ count. count.0 };

    const WORD: usize = 2;

    ghost WORD = { 2 };

    ghost stands = { refl };

    fn of(n: u16) -> RootCount {
        RootCount(n)
    }

    fn get(self) -> u16 {
        self.0
    }
}

impl Limited for RootCount {
    const CEILING: u16 = 4095;

    ghost CEILING = { 4095 };

    ghost ceiling_law = { refl };
}

// How many pointers to a cell stand in other cells.
#[derive(Clone, Copy)]
pub struct CellCount(pub u16);

impl Counter for CellCount {
    ghost sort = { cell };

    ghost value = { λ count. count.0 };

    const WORD: usize = 3;

    ghost WORD = { 3 };

    ghost stands = { refl };

    fn of(n: u16) -> CellCount {
        CellCount(n)
    }

    fn get(self) -> u16 {
        self.0
    }
}

impl Limited for CellCount {
    const CEILING: u16 = 4095;

    ghost CEILING = { 4095 };

    ghost ceiling_law = { refl };
}

// How many times waiting packets name a cell.
#[derive(Clone, Copy)]
pub struct NameCount(pub u16);

impl Counter for NameCount {
    ghost sort = { name };

    ghost value = { λ count. count.0 };

    const WORD: usize = 5;

    ghost WORD = { 5 };

    ghost stands = { refl };

    fn of(n: u16) -> NameCount {
        NameCount(n)
    }

    fn get(self) -> u16 {
        self.0
    }
}
