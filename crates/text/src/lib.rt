// A text cut into lines, a line into fields, and a text read line by line.
#![tactic(auto)]

ghost use Rattle.std.specs.Prelude.{◌≡◌, ℕ, ◌+◌, ◌<◌, ◌≤◌, [], length, MatchOption, MatchResult, ◌≢◌, slice_index};
ghost use Rattle.refusal.specs.declared.TextFault.TheVariants.{TooLong};
ghost use Rattle.text.specs.Cuts.{Cut, FirstLine, lines};

use refusal::TextFault;

const LONGEST_TEXT: usize = 65_536;

// What stands before the first `byte`, and what stands from it on.
fn cut(bytes: &[u8], byte: u8) -> (&[u8], &[u8])
    ensures { Cut byte bytes.now result.0.now result.1.now }
{
    let at = bytes.iter().position(|b| *b == byte);
    bytes.split_at(at.unwrap_or(bytes.len()))
}

// The first field of a line, and what follows it: nothing, or a tab and more fields.
pub fn cut_field(line: &[u8]) -> (&[u8], &[u8])
    ensures { Cut 9 line.now result.0.now result.1.now }
{
    cut(line, b'\t')
}

// The first line of a text that has bytes, and what follows its line feed.
fn split_line(text: &[u8]) -> (&[u8], &[u8])
    requires { 0 < length text.now }
    ensures { FirstLine text.now result.0.now result.1.now }
{
    let (line, end) = cut(text, b'\n');
    match end {
        [] => (line, end),
        [_, rest @ ..] => (line, rest),
    }
}

// The first line of a text and what follows its line feed, or none where the text has no bytes.
pub fn cut_line(text: &[u8]) -> Option<(&[u8], &[u8])>
    ensures { MatchOption result (length text.now ≡ 0) (λ p. FirstLine text.now p.0.now p.1.now) }
{
    if text.is_empty() {
        return None;
    }
    Some(split_line(text))
}

// What is left to read, and how many lines were read before it.
#[derive(Clone, Copy)]
pub struct Text<'a> {
    rest: &'a [u8],
    lines_read: usize,
    ghost few: { length (lines rest.now) + lines_read ≤ 65536 },
}

impl<'a> Text<'a> {
    ghost use Rattle.text.specs.Texts.{longest_text, lines_left, lines_read_of, Opened, NextLine};

    fn start(bytes: &'a [u8]) -> Text<'a>
        requires { length bytes.now ≤ longest_text }
        ensures { Opened bytes.now result }
    {
        Text {
            rest: bytes,
            lines_read: 0,
        }
    }

    pub fn open(bytes: &'a [u8]) -> Result<Text<'a>, TextFault>
        ensures { MatchResult result (λ t. Opened bytes.now t) (λ f. (f ≡ TooLong) × (longest_text < length bytes.now)) }
    {
        if bytes.len() > LONGEST_TEXT {
            return Err(TextFault::TooLong);
        }
        Ok(Text::start(bytes))
    }

    // How many lines were read.
    pub fn lines_read(&self) -> usize
        ensures { result ≡ lines_read_of self.now }
    {
        self.lines_read
    }

    // The next line, or none after the last.
    pub fn next_line(&mut self) -> Option<&'a [u8]>
        ensures { MatchOption result ((lines_left self.old ≡ []) × (self.new ≡ self.old)) (λ l. NextLine self.old l.now self.new) }
    {
        let Text { rest, lines_read } = *self;
        let (line, after) = cut_line(rest)?;
        *self = Text {
            rest: after,
            lines_read: lines_read + 1,
        };
        Some(line)
    }
}
