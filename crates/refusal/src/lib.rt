// Faults of fields, lines, stores, sheets, texts, steps and pages, and what each is told by.
//
// A fault is wrapped whole into the next one out, by `From`: a field's into its line's or its
// sheet's, a store's into its sheet's, a line's into its text's, a line's or a sheet's into that of
// the step that carries the line out. The table of numbers is `specs/Table.antt`.
#![tactic(auto)]

ghost use Rattle.std.specs.Prelude.{◌≡◌, ℕ, Some, codes};
ghost use Rattle.refusal.specs.Table.{refusal_at, flaw_number, store_number, field_refusal, line_refusal, store_refusal, sheet_refusal, text_refusal, step_refusal, page_refusal};
ghost use Rattle.refusal.specs.declared.Refusal.{Refusal};
ghost use Rattle.refusal.specs.declared.LineFault.TheVariants.{Field};
ghost use Rattle.refusal.specs.declared.SheetFault.TheVariants as sheets;
ghost use Rattle.refusal.specs.declared.TextFault.TheVariants.{Line};
ghost use Rattle.refusal.specs.declared.StepFault.TheVariants as steps;

use std::error::Error;
use std::fmt;

// What is wrong with the content of one field.
#[derive(Clone, Copy, PartialEq, Eq, Debug)]
pub enum Flaw {
    Name,
    Number,
    Range,
    Ranking,
}

// A flaw, with the field's place in its line, from 1.
#[derive(Clone, Copy, PartialEq, Eq, Debug)]
pub struct FieldFault {
    pub field: u8,
    pub flaw: Flaw,
}

#[derive(Clone, Copy, PartialEq, Eq, Debug)]
pub enum LineFault {
    // The first field is no record's letter.
    Letter,
    // Not two fields after the letter.
    FieldCount,
    Field(FieldFault),
}

// What a need store is asked for and cannot do.
#[derive(Clone, Copy, PartialEq, Eq, Debug)]
pub enum StoreFault {
    // A number is 512 or more.
    TooLarge,
    // The pair is in the set already.
    Present,
    // As many pairs as places.
    Full,
    // The pair is not in the set.
    Absent,
}

#[derive(Clone, Copy, PartialEq, Eq, Debug)]
pub enum SheetFault {
    Field(FieldFault),
    // The name is entered already.
    Known,
    // 512 tasks stand.
    NoRoom,
    // The name in this field is not entered.
    Unknown(u8),
    // Both names are one task.
    SameTask,
    Store(StoreFault),
}

#[derive(Clone, Copy, PartialEq, Eq, Debug)]
pub enum TextFault {
    TooLong,
    Line(LineFault),
}

// What a line that is carried out upon a sheet is refused by. Not `TextFault` with one more variant:
// a text that is only read meets no sheet.
#[derive(Clone, Copy, PartialEq, Eq, Debug)]
pub enum StepFault {
    Line(LineFault),
    Sheet(SheetFault),
}

#[derive(Clone, Copy, PartialEq, Eq, Debug)]
pub enum PageFault {
    // The lent bytes are fewer than the page has.
    Short,
}

// What a refusal names: the line, from 1, or 0 for none; the field, from 1, or 0 for the whole
// line; the number. No `Option`s: 0 is what the page prints for none.
#[derive(Clone, Copy, PartialEq, Eq, Debug)]
pub struct Refusal {
    pub line: usize,
    pub field: u8,
    pub number: u8,
}

impl Refusal {
    fn at(line: usize, field: u8, number: u8) -> Refusal
        ensures { result ≡ refusal_at line field number }
    {
        Refusal {
            line,
            field,
            number,
        }
    }
}

// A fault that is told by the line it stands in; one that stands in no line is told by line 0.
pub trait Fault {
    ghost told: { ℕ → Self → Refusal };

    fn refusal(self, line: usize) -> Refusal
        ensures { result ≡ told line self };
}

// `From` by hand: the derive of `thiserror` does not say which variant it makes, and the contracts
// of functions with `?` name it.
impl From<FieldFault> for LineFault {
    ghost from_gives = { λ f r. r ≡ Field f };

    fn from(fault: FieldFault) -> LineFault {
        LineFault::Field(fault)
    }
}

impl From<LineFault> for TextFault {
    ghost from_gives = { λ f r. r ≡ Line f };

    fn from(fault: LineFault) -> TextFault {
        TextFault::Line(fault)
    }
}

impl From<FieldFault> for SheetFault {
    ghost from_gives = { λ f r. r ≡ sheets.Field f };

    fn from(fault: FieldFault) -> SheetFault {
        SheetFault::Field(fault)
    }
}

impl From<StoreFault> for SheetFault {
    ghost from_gives = { λ f r. r ≡ sheets.Store f };

    fn from(fault: StoreFault) -> SheetFault {
        SheetFault::Store(fault)
    }
}

impl From<LineFault> for StepFault {
    ghost from_gives = { λ f r. r ≡ steps.Line f };

    fn from(fault: LineFault) -> StepFault {
        StepFault::Line(fault)
    }
}

impl From<SheetFault> for StepFault {
    ghost from_gives = { λ f r. r ≡ steps.Sheet f };

    fn from(fault: SheetFault) -> StepFault {
        StepFault::Sheet(fault)
    }
}

// A method, whose name says what the number is: `u8::from(flaw)` would be no plainer.
impl Flaw {
    pub fn number(self) -> u8
        ensures { result ≡ flaw_number self }
    {
        match self {
            Flaw::Name => 11,
            Flaw::Number => 12,
            Flaw::Range => 13,
            Flaw::Ranking => 14,
        }
    }
}

impl Fault for FieldFault {
    ghost told = { field_refusal };

    fn refusal(self, line: usize) -> Refusal {
        Refusal::at(line, self.field, self.flaw.number())
    }
}

impl Fault for LineFault {
    ghost told = { line_refusal };

    fn refusal(self, line: usize) -> Refusal {
        match self {
            LineFault::Letter => Refusal::at(line, 1, 21),
            LineFault::FieldCount => Refusal::at(line, 0, 22),
            LineFault::Field(fault) => fault.refusal(line),
        }
    }
}

// `number`, as a flaw has it.
impl StoreFault {
    pub fn number(self) -> u8
        ensures { result ≡ store_number self }
    {
        match self {
            StoreFault::TooLarge => 38,
            StoreFault::Present => 35,
            StoreFault::Full => 36,
            StoreFault::Absent => 37,
        }
    }
}

impl Fault for StoreFault {
    ghost told = { store_refusal };

    fn refusal(self, line: usize) -> Refusal {
        Refusal::at(line, 0, self.number())
    }
}

impl Fault for SheetFault {
    ghost told = { sheet_refusal };

    fn refusal(self, line: usize) -> Refusal {
        match self {
            SheetFault::Field(fault) => fault.refusal(line),
            SheetFault::Known => Refusal::at(line, 2, 31),
            SheetFault::NoRoom => Refusal::at(line, 0, 32),
            SheetFault::Unknown(field) => Refusal::at(line, field, 33),
            SheetFault::SameTask => Refusal::at(line, 0, 34),
            SheetFault::Store(fault) => fault.refusal(line),
        }
    }
}

impl Fault for TextFault {
    ghost told = { text_refusal };

    fn refusal(self, line: usize) -> Refusal {
        match self {
            TextFault::TooLong => Refusal::at(0, 0, 51),
            TextFault::Line(fault) => fault.refusal(line),
        }
    }
}

impl Fault for StepFault {
    ghost told = { step_refusal };

    fn refusal(self, line: usize) -> Refusal {
        match self {
            StepFault::Line(fault) => fault.refusal(line),
            StepFault::Sheet(fault) => fault.refusal(line),
        }
    }
}

// No `Fault`, since a page stands in no line.
impl PageFault {
    pub fn refusal(self) -> Refusal
        ensures { result ≡ page_refusal self }
    {
        match self {
            PageFault::Short => Refusal::at(0, 0, 61),
        }
    }
}

// By hand, since the derive of `thiserror` does not say what is written.
impl fmt::Display for PageFault {
    ghost output = { λ _. Some (codes "the page has more bytes than are lent") };

    fn fmt<W: fmt::Write>(&self, f: &mut fmt::Formatter<W>) -> fmt::Result {
        match self {
            PageFault::Short => write!(f, "the page has more bytes than are lent"),
        }
    }
}

impl Error for PageFault {}
