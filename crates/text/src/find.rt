// Where a byte stands.
ghost use Rattle.std.specs.Prelude.{◌≡◌, ◌+◌, length, drop};
ghost use Rattle.text.specs.Inner.{before};

// The index of the first byte of that kind from an index on, or where s ends.
pub fn end_of(s: &[u8], at: usize, b: u8) -> usize
    ensures { result ≡ at + length (before b (drop at s.now)) }
{
    let rest = s.get(at..).unwrap_or(&[]);
    at + rest.iter().position(|x| *x == b).unwrap_or(rest.len())
}
