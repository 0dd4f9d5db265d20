// What a summary at the end counts.
ghost use Rattle.std.specs.Prelude.{◌≡◌};
ghost use Rattle.trace.specs.Tally.{grown, is, tallied};

use rows::row::Row;

// The rounds that ended; the lowest inflight_lo, or 2^64 - 1; the line of the first refusal; how many lines were
// refused, and how many with 6, 1, 2.1 to 2.5, 2.9, 3, 4, 10 and 5.
// Each has a name, by which the summary says it; a map from a refusal to a count would need a heap.
#[derive(Clone, Copy)]
pub struct Tally {
    pub rounds: u64,
    // As inflight_lo is stored, 2^64 - 1 where none was set.
    pub lowest: u64,
    pub first: Option<u64>,
    pub refused: u64,
    pub text: u64,
    pub stored: u64,
    pub window: u64,
    pub bytes: u64,
    pub bandwidth: u64,
    pub length: u64,
    pub total: u64,
    pub moment: u64,
    pub earlier: u64,
    pub lower: u64,
    pub unsent: u64,
    pub full: u64,
}

// One more where it grows, but not above 2^64 - 1.
#[tactic(auto, unfolding(crate::specs::Tally::grown, crate::specs::Tally::one_more))]
fn grow(n: u64, grows: bool) -> u64
    ensures { result ≡ grown grows n }
{
    if grows { n.saturating_add(1) } else { n }
}

// Whether a row has this refusal, and this part of it.
fn is(row: Row, refusal: u64, part: Option<u64>) -> bool
    ensures { result ≡ is row refusal part }
{
    row.refusal == refusal && row.part == part
}

impl Tally {
    // Nothing is counted yet.
    pub const NONE: Tally = Tally {
        rounds: 0,
        lowest: u64::MAX,
        first: None,
        refused: 0,
        text: 0,
        stored: 0,
        window: 0,
        bytes: 0,
        bandwidth: 0,
        length: 0,
        total: 0,
        moment: 0,
        earlier: 0,
        lower: 0,
        unsent: 0,
        full: 0,
    };

    // After a row.
    #[tactic(auto, unfolding(crate::specs::Tally::tallied))]
    pub(crate) fn count(self, ended: bool, lo: u64, row: Row) -> Tally
        ensures { result ≡ tallied self ended lo row }
    {
        let refused = row.refusal != 0;
        Tally {
            rounds: grow(self.rounds, ended),
            lowest: self.lowest.min(lo),
            first: self.first.or(refused.then_some(row.line)),
            refused: grow(self.refused, refused),
            text: grow(self.text, is(row, 6, None)),
            stored: grow(self.stored, is(row, 1, None)),
            window: grow(self.window, is(row, 2, Some(1))),
            bytes: grow(self.bytes, is(row, 2, Some(2))),
            bandwidth: grow(self.bandwidth, is(row, 2, Some(3))),
            length: grow(self.length, is(row, 2, Some(4))),
            total: grow(self.total, is(row, 2, Some(5))),
            moment: grow(self.moment, is(row, 2, Some(9))),
            earlier: grow(self.earlier, is(row, 3, None)),
            lower: grow(self.lower, is(row, 4, None)),
            unsent: grow(self.unsent, is(row, 10, None)),
            full: grow(self.full, is(row, 5, None)),
        }
    }
}
