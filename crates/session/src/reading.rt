// Lines that are only read: each is answered by itself.
ghost use Rattle.session.specs.Reading.{answer_to};

use crate::Handler;
use record::read_record;
use refusal::TextFault;

#[derive(Clone, Copy)]
pub struct Reading;

impl Handler for Reading {
    type Fault = TextFault;

    ghost Book = { Unit {0} };

    ghost book = { λ _. tt };

    ghost answer = { λ _. answer_to };

    ghost after = { λ b _. b };

    fn handle(&mut self, line: &[u8]) -> Result<(), TextFault> {
        read_record(line)?;
        Ok(())
    }
}
