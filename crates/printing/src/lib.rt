// A whole text handled, its pages written one after another.
#![tactic(auto)]

ghost use Rattle.std.specs.Prelude.{◌≡◌, ◌+◌, take, OnOk, IfOk, IfSome};
ghost use Rattle.text.specs.Texts.{longest_text};
ghost use Rattle.printing.specs.Whole.{after_text};

use page::write_refusal;
use refusal::Fault;
use session::{Handler, step};
use std::alloc::Global;
use std::io::{self, BufWriter, Read, Write};
use text::Text;

// One byte more than a text may have, so that a longer one is told without reading it all.
const MOST_READ: u64 = 65_537;

// More than any page has.
const PAGE_BYTES: usize = 65_536;

// Hands every line over and writes its page, by way of the lent bytes; of a text that cannot be
// opened, the one page that says so.
pub fn print_pages<H: Handler>(
    bytes: &[u8],
    handler: &mut H,
    page: &mut [u8],
    out: &mut impl Write,
) -> anyhow::Result<()>
    ensures { OnOk result (H.book handler.new ≡ after_text H.after (H.book handler.old) bytes.now) }
{
    let mut text = match Text::open(bytes) {
        Ok(text) => text,
        Err(fault) => {
            let count = write_refusal(page, fault.refusal(0))?;
            out.write_all(&page[0..count])?;
            return Ok(());
        }
    };
    while let Some(count) = step(&mut text, handler, page)? {
        out.write_all(&page[0..count])?;
    }
    Ok(())
}

// The text, or as much of it as tells that it is too long.
fn read_text<R: Read + Drop>(alloc: Global, input: R) -> io::Result<Vec<u8>>
    ensures { IfOk result (λ v. IfSome (R.remaining input) (λ s. v.items ≡ take (longest_text + 1) s)) }
{
    let mut bytes = Vec::new(alloc);
    input.take(MOST_READ).read_to_end(&mut bytes)?;
    Ok(bytes)
}

// Reads a text to its end, hands its lines over, and writes their pages.
pub fn run<H: Handler, R: Read + Drop, W: Write + Drop>(
    alloc: Global,
    input: R,
    output: W,
    handler: &mut H,
) -> anyhow::Result<()>
    ensures { OnOk result (IfSome (R.remaining input) (λ s. H.book handler.new ≡ after_text H.after (H.book handler.old) s)) }
{
    let bytes = read_text(alloc, input)?;
    let mut page = vec![in alloc; 0; PAGE_BYTES]?;
    let mut out = BufWriter::new(alloc, output)?;
    print_pages(&bytes, handler, &mut page, &mut out)?;
    out.flush()?;
    Ok(())
}
