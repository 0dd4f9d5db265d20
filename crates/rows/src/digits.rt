// Numbers in decimal digits, and what writes them into a lent slice.
// Digits are written by hand: a number's Display writes to a formatter, not at a place of lent bytes.
ghost use Rattle.std.specs.Prelude.{◌≡◌, [], ◌∷◌, ◌+◌, ◌≤◌, ◌<◌, length};
ghost use Rattle.rows.specs.Digits.{places_of, digits_of, decimal, Puts};

// How many digits a number has.
fn places(n: u64) -> usize
    ensures places { result ≡ places_of n }
    ensures few { result ≤ 20 }
{
    match n.checked_ilog10() {
        None => 1,
        Some(k) => k as usize + 1,
    }
}

// Fills a slice with the last digits of a number.
fn spell(out: &mut [u8], n: u64)
    ensures { out.new ≡ digits_of (length out.old) n }
{
    let mut rest = n;
    for i in (0..out.len()).rev() {
        out[i] = b'0' + (rest % 10) as u8;
        rest /= 10;
    }
}

// A lent slice, and the index at which the next byte goes.
#[derive(Drop)]
pub(crate) struct Writer<'a> {
    pub out: &'a mut [u8],
    pub at: usize,
}

impl Writer<'_> {
    // A byte.
    pub(crate) fn byte(&mut self, b: u8)
        requires { self.old.at < length self.old.out.now }
        ensures { Puts self.old self.new (b ∷ []) 1 }
    {
        self.out[self.at] = b;
        self.at += 1;
    }

    // A number.
    pub(crate) fn decimal(&mut self, n: u64)
        requires { self.old.at + 20 ≤ length self.old.out.now }
        ensures { Puts self.old self.new (decimal n) 20 }
    {
        let end = self.at + places(n);
        spell(&mut self.out[self.at..end], n);
        self.at = end;
    }
}
