// What one field may hold: names, numbers, times, worker counts and ranking letters.
#![tactic(auto)]

ghost use Rattle.std.specs.Prelude.{◌≡◌, ℕ, ◌<◌, ◌≤◌, length, if◌then◌else◌, Some, None, Result, MatchResult};
ghost use Rattle.std.specs.Str.Parse.{digits_value};
ghost use Rattle.std.specs.Char.{is_ascii_digit, digit_value};
ghost use Rattle.std.specs.List.{list_all};
ghost use Rattle.std.specs.Str.{all_ascii_digits};
ghost use Rattle.refusal.specs.Answers.{seen};
ghost use Rattle.field.specs.Names.{name_byte, name_at};
ghost use Rattle.field.specs.Numbers.{most_digits, longest_time, number_at, Writes, ranged, time_at, workers_at};
ghost use Rattle.field.specs.Letters.{letter_at, letter_of};

use refusal::{FieldFault, Flaw};

const LONGEST_NAME: usize = 24;

const MOST_DIGITS: usize = 7;

const LONGEST_TIME: u64 = 1_000_000;

const MOST_WORKERS: u64 = 64;

// The letter by which a planning record names its ranking.
#[derive(Clone, Copy, PartialEq, Eq, Debug)]
pub enum Letter {
    E,
    T,
    G,
    A,
    B,
}

impl TryFrom<&[u8]> for Letter {
    type Error = Flaw;

    ghost try_from_gives = { λ s r. r ≡ letter_of s.now };

    fn try_from(bytes: &[u8]) -> Result<Letter, Flaw> {
        match bytes {
            b"E" => Ok(Letter::E),
            b"T" => Ok(Letter::T),
            b"G" => Ok(Letter::G),
            b"A" => Ok(Letter::A),
            b"B" => Ok(Letter::B),
            _ => Err(Flaw::Ranking),
        }
    }
}

fn is_name_byte(byte: u8) -> bool
    ensures { result ≡ name_byte byte }
{
    matches!(byte, b'A'..=b'Z' | b'a'..=b'z' | b'0'..=b'9' | b'.' | b'_' | b'-')
}

fn all_name_bytes(bytes: &[u8]) -> bool
    ensures { result ≡ list_all name_byte bytes.now }
{
    bytes.iter().all(|byte| is_name_byte(*byte))
}

fn digit(byte: u8) -> Option<u32>
    ensures { result ≡ (if is_ascii_digit byte then Some (digit_value byte) else None) }
{
    char::from(byte).to_digit(10)
}

// The number that a few digits write, or none where a byte is no digit. By hand: `parse` takes a sign,
// and asks for a `str`.
fn digits_value(digits: &[u8]) -> Option<u64>
    requires { length digits.now ≤ most_digits }
    ensures { result ≡ (if all_ascii_digits digits.now then Some (digits_value 10 digits.now) else None) }
{
    let mut number: u64 = 0;
    for byte in digits {
        let digit = digit(*byte)?;
        number = number * 10 + digit as u64;
    }
    Some(number)
}

// The number itself where it is 1 to `most`.
fn check_range(number: u64, most: u64, field: u8) -> Result<u64, FieldFault>
    ensures { result ≡ ranged most field number }
{
    if !(1..=most).contains(&number) {
        return Err(FieldFault {
            field,
            flaw: Flaw::Range,
        });
    }
    Ok(number)
}

// A time that a task may have, in ticks.
pub fn check_time(time: u64, field: u8) -> Result<u64, FieldFault>
    ensures { result ≡ ranged longest_time field time }
{
    check_range(time, LONGEST_TIME, field)
}

// A field of a line: its place among the line's fields, from 1, and its bytes.
#[derive(Clone, Copy)]
pub struct Field<'a> {
    pub place: u8,
    pub bytes: &'a [u8],
}

impl<'a> Field<'a> {
    pub fn new(place: u8, bytes: &'a [u8]) -> Field<'a>
        ensures { (result.place ≡ place) × (result.bytes.now ≡ bytes.now) }
    {
        Field { place, bytes }
    }

    fn fault(self, flaw: Flaw) -> FieldFault
        ensures { result ≡ record { field = self.entry.place; flaw = flaw } }
    {
        FieldFault {
            field: self.place,
            flaw,
        }
    }

    // A name: 1 to 24 name bytes.
    pub fn name(self) -> Result<&'a [u8], FieldFault>
        ensures { seen (λ x. x.now) result ≡ name_at self.entry.place self.entry.bytes.now }
    {
        let bytes = self.bytes;
        if bytes.is_empty() || bytes.len() > LONGEST_NAME || !all_name_bytes(bytes) {
            return Err(self.fault(Flaw::Name));
        }
        Ok(bytes)
    }

    fn numeral(self) -> Result<u64, FieldFault>
        ensures { result ≡ number_at self.entry.place self.entry.bytes.now }
    {
        let bytes = self.bytes;
        if bytes.is_empty() || bytes.len() > MOST_DIGITS || bytes[0] == b'0' {
            return Err(self.fault(Flaw::Number));
        }
        digits_value(bytes).ok_or(self.fault(Flaw::Number))
    }

    // A number: 1 to 7 digits, the first no 0.
    pub fn number(self) -> Result<u64, FieldFault>
        ensures value { result ≡ number_at self.entry.place self.entry.bytes.now }
        ensures written { MatchResult result (λ n. Writes self.entry.bytes.now n) (λ _. (n : ℕ) → Writes self.entry.bytes.now n → ⊥) }
    {
        self.numeral()
    }

    pub fn time(self) -> Result<u64, FieldFault>
        ensures { result ≡ time_at self.entry.place self.entry.bytes.now }
    {
        check_time(self.number()?, self.place)
    }

    pub fn workers(self) -> Result<usize, FieldFault>
        ensures { result ≡ workers_at self.entry.place self.entry.bytes.now }
    {
        let workers = check_range(self.number()?, MOST_WORKERS, self.place)?;
        Ok(workers as usize)
    }

    pub fn letter(self) -> Result<Letter, FieldFault>
        ensures { result ≡ letter_at self.entry.place self.entry.bytes.now }
    {
        // With `map_err` the contract does not close.
        match Letter::try_from(self.bytes) {
            Ok(letter) => Ok(letter),
            Err(flaw) => Err(self.fault(flaw)),
        }
    }
}
