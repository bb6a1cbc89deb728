// A line read as a record.
#![tactic(auto)]

ghost use Rattle.std.specs.Prelude.{◌≡◌, IfOk, Err, MatchResult};
ghost use Rattle.refusal.specs.Answers.{seen};
ghost use Rattle.text.specs.Cuts.{fields};
ghost use Rattle.record.specs.Records.{kind_of, two_fields, part, part_at, two_names, name_and_time, meant, asked_by, fields_by, record_of, Parts};

use field::{Field, Letter};
use refusal::{FieldFault, LineFault};
use text::cut_field;

// What a record's letter asks for.
#[derive(Clone, Copy)]
enum Kind {
    Task,
    Need,
    Drop,
    Retime,
    Plan,
}

// A part of a line: its bytes, and how many bytes of the line stand before them.
#[derive(Clone, Copy)]
pub struct Part<'a> {
    pub bytes: &'a [u8],
    pub at: usize,
}

// A good line, by its letter; its names are parts of the line.
#[derive(Clone, Copy)]
pub enum Record<'a> {
    T { name: Part<'a>, time: u64 },
    N { task: Part<'a>, need: Part<'a> },
    D { task: Part<'a>, need: Part<'a> },
    R { name: Part<'a>, time: u64 },
    P { workers: usize, letter: Letter },
}

impl TryFrom<char> for Kind {
    type Error = LineFault;

    ghost try_from_gives = { λ c r. r ≡ kind_of c };

    fn try_from(letter: char) -> Result<Kind, LineFault> {
        match letter {
            'T' => Ok(Kind::Task),
            'N' => Ok(Kind::Need),
            'D' => Ok(Kind::Drop),
            'R' => Ok(Kind::Retime),
            'P' => Ok(Kind::Plan),
            _ => Err(LineFault::Letter),
        }
    }
}

// The kind that the first field names, and the fields after it.
fn read_head(line: &[u8]) -> Result<(Kind, &[u8]), LineFault>
    ensures { MatchResult result (λ p. record_of line.now ≡ fields_by p.0 (fields p.1.now)) (λ e. record_of line.now ≡ Err e) }
{
    match line {
        [letter, b'\t', rest @ ..] => Ok((Kind::try_from(char::from(*letter))?, rest)),
        [letter] => {
            Kind::try_from(char::from(*letter))?;
            Err(LineFault::FieldCount)
        }
        _ => Err(LineFault::Letter),
    }
}

// A name, `at` bytes into its line.
fn read_part<'a>(field: Field<'a>, at: usize) -> Result<Part<'a>, FieldFault>
    ensures { seen part result ≡ part_at field.entry.place at field.entry.bytes.now }
{
    Ok(Part {
        bytes: field.name()?,
        at,
    })
}

// The two fields after a record's letter, as bytes.
#[derive(Clone, Copy)]
struct Fields<'a> {
    first: &'a [u8],
    second: &'a [u8],
}

// Exactly two fields.
fn read_two(rest: &[u8]) -> Result<Fields<'_>, LineFault>
    ensures { seen (λ f. (f.first.now, f.second.now)) result ≡ two_fields (fields rest.now) }
{
    let (first, after) = cut_field(rest);
    let [_, more @ ..] = after else {
        return Err(LineFault::FieldCount);
    };
    let (second, end) = cut_field(more);
    if !end.is_empty() {
        return Err(LineFault::FieldCount);
    }
    Ok(Fields { first, second })
}

impl<'a> Fields<'a> {
    fn first(self) -> Field<'a>
        ensures { (result.place ≡ 2) × (result.bytes.now ≡ self.entry.first.now) }
    {
        Field::new(2, self.first)
    }

    fn second(self) -> Field<'a>
        ensures { (result.place ≡ 3) × (result.bytes.now ≡ self.entry.second.now) }
    {
        Field::new(3, self.second)
    }

    fn names(self) -> Result<(Part<'a>, Part<'a>), FieldFault>
        ensures { seen (λ p. (part p.0, part p.1)) result ≡ two_names self.entry.first.now self.entry.second.now }
    {
        let task = read_part(self.first(), 2)?;
        let need = read_part(self.second(), 3 + self.first.len())?;
        Ok((task, need))
    }

    fn name_and_time(self) -> Result<(Part<'a>, u64), FieldFault>
        ensures { seen (λ p. (part p.0, p.1)) result ≡ name_and_time self.entry.first.now self.entry.second.now }
    {
        let name = read_part(self.first(), 2)?;
        let time = self.second().time()?;
        Ok((name, time))
    }

    // A record of a kind.
    fn record(self, kind: Kind) -> Result<Record<'a>, FieldFault>
        ensures { seen meant result ≡ asked_by kind self.entry.first.now self.entry.second.now }
    {
        // A match and no table of readers, since each kind has fields of its own.
        match kind {
            Kind::Task => self
                .name_and_time()
                .map(|(name, time)| Record::T { name, time }),
            Kind::Need => self.names().map(|(task, need)| Record::N { task, need }),
            Kind::Drop => self.names().map(|(task, need)| Record::D { task, need }),
            Kind::Retime => self
                .name_and_time()
                .map(|(name, time)| Record::R { name, time }),
            Kind::Plan => {
                let workers = self.first().workers()?;
                let letter = self.second().letter()?;
                Ok(Record::P { workers, letter })
            }
        }
    }
}

// The record that a line holds.
pub fn read_record(line: &[u8]) -> Result<Record<'_>, LineFault>
    ensures value { seen meant result ≡ record_of line.now }
    ensures parts { IfOk result (λ p. Parts line.now (meant p)) }
{
    let (kind, rest) = read_head(line)?;
    Ok(read_two(rest)?.record(kind)?)
}
