// The bytes of the present line, gathered from the parts of the input.
ghost use Rattle.line_text.specs.Kept.{Keeps};

use crate::parse;

// One byte too many tells that a line is too long.
pub const KEPT_BYTES: usize = parse::MOST_BYTES + 1;

// The part's bytes join those held, as far as there is room.
pub fn keep(line: &mut [u8], held: usize, part: &[u8]) -> usize
    ensures { Keeps line.old held part.now line.new result }
{
    let from = held.min(line.len());
    let size = part.len().min(line.len() - from);
    let end = from + size;
    line[from..end].copy_from_slice(&part[..size]);
    end
}
