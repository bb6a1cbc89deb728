// Lines that are carried out upon a sheet.
ghost use Rattle.std.specs.Prelude.{◌≡◌};
ghost use Rattle.std.specs.Option.{option_map};
ghost use Rattle.record.specs.Records.{meant};
ghost use Rattle.session.specs.Execution.{call_for, answer_to, after_line};
ghost use Rattle.sheet.specs.Book.{Book};
ghost use Rattle.sheet.specs.Requests.{asked};
ghost use Rattle.sheet.specs.Sheets.{book_of};

use crate::Handler;
use needs::NeedStore;
use record::{Record, read_record};
use refusal::StepFault;
use sheet::{Request, Sheet};

// The call that a good record asks for; planning is only read. A match and no table of calls, since each
// record has parts of its own.
fn request_for(good: Record<'_>) -> Option<Request<'_>>
    ensures { option_map asked result ≡ call_for (meant good.entry) }
{
    match good {
        Record::T { name, time } => Some(Request::Enter {
            name: name.bytes,
            time,
        }),
        Record::N { task, need } => Some(Request::Need {
            task: task.bytes,
            need: need.bytes,
        }),
        Record::D { task, need } => Some(Request::Drop {
            task: task.bytes,
            need: need.bytes,
        }),
        Record::R { name, time } => Some(Request::Retime {
            name: name.bytes,
            time,
        }),
        Record::P { .. } => None,
    }
}

impl<S: NeedStore> Handler for Sheet<S> {
    type Fault = StepFault;

    ghost Book = { Book };

    ghost book = { book_of S.has S.places };

    ghost answer = { answer_to };

    ghost after = { after_line };

    fn handle(&mut self, line: &[u8]) -> Result<(), StepFault> {
        if let Some(request) = request_for(read_record(line)?) {
            self.carry_out(request)?;
        }
        Ok(())
    }
}
