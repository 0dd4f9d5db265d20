// Fractions of a byte that nothing rounds, for three reductions by b = 11744051 / 2^24.
ghost use Rattle.std.specs.Prelude.{◌≡◌, ◌+◌, ◌*◌, ◌^◌, ◌<◌};

// b is so many parts of 2^-24.
const PARTS: u64 = 11_744_051;

// Thousandths of a byte, and below them three digits of 24 bits.
#[derive(Clone, Copy)]
pub struct Exact {
    pub thousandths: u64,
    pub first: u64,
    pub second: u64,
    pub third: u64,
}

// The fraction times b. The third digit was empty: what is put there is exact.
pub fn reduced(x: Exact) -> Exact
    requires { (x.thousandths < 2 ^ 24) × (x.first < 2 ^ 24) × (x.second < 2 ^ 24) }
    ensures digits { (result.thousandths < 2 ^ 24) × (result.first < 2 ^ 24) × (result.second < 2 ^ 24) }
    ensures value { ((result.thousandths * 2 ^ 24 + result.first) * 2 ^ 24 + result.second) * 2 ^ 24 + result.third ≡ ((x.thousandths * 2 ^ 24 + x.first) * 2 ^ 24 + x.second) * 11744051 }
{
    let low = x.second * PARTS;
    let middle = x.first * PARTS + low / 16_777_216;
    let high = x.thousandths * PARTS + middle / 16_777_216;
    Exact {
        thousandths: high / 16_777_216,
        first: high % 16_777_216,
        second: middle % 16_777_216,
        third: low % 16_777_216,
    }
}
