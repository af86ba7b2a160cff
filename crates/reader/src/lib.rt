// Reads a rule text into a store, for any table, queue and text: its questions are asked, and only then its tree is built by cons.
#![tactic(auto)]

mod asked;
mod build;

ghost use Rattle.reader.specs.Called.{ReadCalled};

use asked::text_asked;
use build::build;
use calls::RowReply;
use machine::Queue;

// The reply is the word of the text's tree.
pub fn read_text(table: &mut [u16], queue: Queue, text: &[u8]) -> RowReply
    ensures { ReadCalled table.old queue text.now result.answer table.new result.queue }
{
    match text_asked(table, &queue, text) {
        Err(refusal) => RowReply {
            answer: Err(refusal),
            queue,
        },
        Ok(()) => {
            let built = build(table, queue, text);
            let rest = built.queue;
            RowReply {
                answer: Ok(built.word),
                queue: rest,
            }
        }
    }
}
