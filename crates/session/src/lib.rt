// A text handled step by step, one line and its page at a time: only read, or carried out upon a
// sheet.
#![tactic(auto)]

ghost use Rattle.std.specs.Prelude.{◌≡◌, ℕ, List, Result, OnErr};
ghost use Rattle.session.specs.Steps.{Stepped};

use page::write_refusal;
use refusal::{Fault, PageFault};
use text::Text;

mod execution;
mod reading;

pub use reading::Reading;

// What the lines of a text are handed to, one after another.
pub trait Handler {
    type Fault: Fault;

    // What lines are handled upon.
    ghost Book: { Type 0 };

    ghost book: { Self → Book };

    // What the book answers to a line.
    ghost answer: { Book → List ℕ → Result (Unit {0}) Self.Fault };

    // The book after a line.
    ghost after: { Book → List ℕ → Book };

    // A refused line leaves the book as it was.
    fn handle(&mut self, line: &[u8]) -> Result<(), Self::Fault>
        ensures answer { result ≡ answer (book self.old) line.now }
        ensures book { book self.new ≡ after (book self.old) line.now }
        ensures kept { OnErr result (book self.new ≡ book self.old) };
}

// Hands the next line over, answers it at the front of the lent bytes and goes on: the number of
// bytes of its page, or none after the last line. Where the page has more bytes than are lent, it
// stays at its line; only a refused line has a page, so nothing is undone.
pub fn step<H: Handler>(
    text: &mut Text<'_>,
    handler: &mut H,
    out: &mut [u8],
) -> Result<Option<usize>, PageFault>
    ensures { Stepped (record { told = H.Fault.told; answer = H.answer; after = H.after }) text.old text.new (H.book handler.old) (H.book handler.new) out.old out.new result }
{
    let mut next = *text;
    let Some(line) = next.next_line() else {
        return Ok(None);
    };
    let count = match handler.handle(line) {
        Ok(()) => 0,
        Err(fault) => write_refusal(out, fault.refusal(next.lines_read()))?,
    };
    *text = next;
    Ok(Some(count))
}
