// Pages as bytes, written at the front of lent memory.
//
// A text is put in where it fits, and counted in any case, so that a page is measured by putting it
// into no bytes at all.
#![tactic(auto)]

ghost use Rattle.std.specs.Prelude.{[], ◌∷◌, decimal};
ghost use Rattle.page.specs.Pages.{Puts};
ghost use Rattle.page.specs.Refusals.{refusal_page};
ghost use Rattle.page.specs.Writing.{Put, Written, tabbed};

use itoa::Buffer;
use refusal::{PageFault, Refusal};

// The lent bytes, and where the page goes on. No `ArrayVec`: a page is counted on past the end of the
// bytes.
#[derive(Drop)]
struct Page<'a> {
    out: &'a mut [u8],
    at: usize,
}

// By hand, since `write!` does not say when it succeeds.
impl Page<'_> {
    fn put(&mut self, bytes: &[u8])
        ensures { Puts self.old self.new bytes.now }
    {
        let end = self.at.saturating_add(bytes.len());
        if end <= self.out.len() {
            self.out[self.at..end].copy_from_slice(bytes);
        }
        self.at = end;
    }

    fn put_byte(&mut self, byte: u8)
        ensures { Puts self.old self.new (byte ∷ []) }
    {
        self.put(&[byte]);
    }

    fn put_number(&mut self, number: u64)
        ensures { Puts self.old self.new (decimal number) }
    {
        self.put(Buffer::new().format(number).as_bytes());
    }

    // A tab and a number.
    fn put_tabbed(&mut self, number: u64)
        ensures { Puts self.old self.new (tabbed number) }
    {
        self.put_byte(b'\t');
        self.put_number(number);
    }

    fn put_refusal(&mut self, refusal: Refusal)
        ensures { Puts self.old self.new (refusal_page refusal) }
    {
        self.put_byte(b'!');
        self.put_tabbed(refusal.line as u64);
        self.put_tabbed(refusal.field as u64);
        self.put_tabbed(refusal.number as u64);
        self.put_byte(b'\n');
    }
}

fn put_refusal(out: &mut [u8], refusal: Refusal) -> usize
    ensures { Put out.old 0 out.new result (refusal_page refusal) }
{
    let mut page = Page { out, at: 0 };
    page.put_refusal(refusal);
    page.at
}

// The page of a refusal at the front of the lent bytes, or nothing where they are too few: how many
// bytes it has, and no slice, which would keep the others lent.
pub fn write_refusal(out: &mut [u8], refusal: Refusal) -> Result<usize, PageFault>
    ensures { Written out.old out.new (refusal_page refusal) result }
{
    if out.len() < put_refusal(&mut [], refusal) {
        return Err(PageFault::Short);
    }
    Ok(put_refusal(out, refusal))
}
