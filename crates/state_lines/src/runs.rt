// Words as runs: n r c1 v1 ... cr vr.
ghost use Rattle.std.specs.Prelude.{◌≤◌, length};

use std::fmt;

// Words, or a buffer's bytes, that are written as runs.
#[derive(Drop)]
pub struct Runs<'w, T>(pub &'w [T]);

impl<'w, T: PartialEq + fmt::Display> fmt::Display for Runs<'w, T> {
    fn fmt<W: fmt::Write>(&self, f: &mut fmt::Formatter<W>) -> fmt::Result {
        let words = self.0;
        write!(
            f,
            "{} {}",
            words.len(),
            words.chunk_by(|v, w| v == w).count()
        )?;
        for run in words.chunk_by(|v, w| v == w) {
            if let Some(word) = run.first() {
                write!(f, " {} {}", run.len(), word)?;
            }
        }
        Ok(())
    }
}

// How many words the runs behind a line's first two numbers are, with the words put into the front; a run for which there is no room is left out.
pub fn expand(numbers: &[u16], words: &mut [u16]) -> usize
    ensures { result ≤ length words.new }
{
    let mut end: usize = 0;
    for run in numbers.get(2..).unwrap_or(&[]).chunks_exact(2) {
        let count = usize::from(run[0]);
        if count <= words.len() - end {
            words[end..end + count].fill(run[1]);
            end += count;
        }
    }
    end
}
