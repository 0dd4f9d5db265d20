// Plain decimal numbers, and the fields that hold them.
// Read by hand: `parse` takes a sign and leading zeros, which a trace may not have.
ghost use Rattle.std.specs.Prelude.{◌≡◌};
ghost use Rattle.text.specs.Inner.{pushed, read_from};
ghost use Rattle.text.specs.Number.{cell_of, number_of};

// A number with one digit more, below 2^64.
fn push(n: u64, b: u8) -> Option<u64>
    ensures { result ≡ pushed n b }
{
    if !b.is_ascii_digit() {
        return None;
    }
    n.checked_mul(10)?.checked_add((b - b'0') as u64)
}

// The number whose digits these are.
fn read(s: &[u8]) -> Option<u64>
    ensures { result ≡ read_from 0 s.now }
{
    let mut n = 0;
    for b in s {
        n = push(n, *b)?;
    }
    Some(n)
}

// A field: empty, a plain number, or neither.
#[derive(Clone, Copy, Debug, PartialEq, Eq)]
pub enum Cell {
    Empty,
    Number(u64),
    Other,
}

impl Cell {
    pub(crate) fn new(s: &[u8]) -> Cell
        ensures { result ≡ cell_of s.now }
    {
        match s {
            [] => Cell::Empty,
            [b'0', _, ..] => Cell::Other,
            _ => match read(s) {
                Some(n) => Cell::Number(n),
                None => Cell::Other,
            },
        }
    }

    // Its number, or 0 where it is none.
    pub(crate) fn number(self) -> u64
        ensures { result ≡ number_of self }
    {
        match self {
            Cell::Number(n) => n,
            _ => 0,
        }
    }
}
