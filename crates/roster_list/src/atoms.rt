// Atoms and their values.
ghost use Rattle.std.specs.Prelude.{◌≡◌, ◌-◌, ◌≤◌};
ghost use Rattle.machine.specs.Words.{first_atom};
ghost use Rattle.readings.specs.Calls.{most_value};
ghost use Rattle.roster_list.specs.Nodes.{atom_of};

use machine::FIRST_ATOM;

// The atom of a value; nil for a number that is no atom's value.
// Kept: a test and a sum, and no checked sum, since the edit largest_atoms_value_taken_for_none changes this test alone.
pub fn atom(value: u16) -> u16
    ensures { value ≤ most_value → result ≡ atom_of value }
{
    if FIRST_ATOM <= value {
        return 0;
    }
    FIRST_ATOM + value
}

// The value of an atom; 0 for a word that is no atom.
pub fn value_of(word: u16) -> u16
    ensures { result ≡ word - first_atom }
{
    word.saturating_sub(FIRST_ATOM)
}
