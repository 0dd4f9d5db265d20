// Why a call is refused: document 01's table, 1 to 7, and document 02's 10. A bad argument is named by a fault: the kind of
// the bound that it passed, and 256 times its place (crates/state/src/faults.rt).
ghost use Rattle.std.specs.Prelude.{◌≡◌};
ghost use Rattle.units.specs.Reply.{row_of, fault_of, reply_word};

#[derive(Clone, Copy, PartialEq, Eq)]
pub enum Refusal {
    OutOfBounds,
    BadArgument(u32),
    EarlierMoment,
    LowerTotal,
    FullCounter,
    BadText,
    ShortOutput,
    NeverSent,
}

impl Refusal {
    // The refusal's row in the documents' table.
    pub fn row(self) -> u64
        ensures { result ≡ row_of self }
    {
        match self {
            Refusal::OutOfBounds => 1,
            Refusal::BadArgument(_) => 2,
            Refusal::EarlierMoment => 3,
            Refusal::LowerTotal => 4,
            Refusal::FullCounter => 5,
            Refusal::BadText => 6,
            Refusal::ShortOutput => 7,
            Refusal::NeverSent => 10,
        }
    }

    // The row and the fault in one word, as a refusal crosses.
    pub fn word(self) -> u64
        ensures { result ≡ reply_word (row_of self) (fault_of self) }
    {
        match self {
            Refusal::BadArgument(fault) => fault_word(fault),
            _ => self.row(),
        }
    }
}

// The word of a refusal 2 with this fault.
pub fn fault_word(fault: u32) -> u64
    ensures { result ≡ reply_word 2 fault }
{
    2 + 256 * u64::from(fault)
}
