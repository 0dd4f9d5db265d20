// Document 01's table of refusals, with document 02's row 10: which rows of it hold for a call, and the reply that
// they give.
ghost use Rattle.std.specs.Prelude.{◌≡◌};
ghost use Rattle.units.specs.Reply.{row_of, fault_of, number, fault};
ghost use Rattle.state.specs.Faults.{named};
ghost use Rattle.state.specs.Refusals.{cause_row, caused, first_of, or_short};

use units::Refusal;

// For one call, which of the table's rows hold.
#[derive(Clone, Copy)]
pub struct Rows {
    // 1: "a stored number or a parameter is outside the bounds below".
    pub stored: bool,
    // 2: "an argument is outside its bounds, .. or a postponed moment would exceed 2^62".
    pub argument: bool,
    // 3: "the moment given is earlier than the last accepted one".
    pub earlier: bool,
    // 4: "the total acked or the total lost is lower than the one stored".
    pub lower: bool,
    // 10: "An event whose acked list holds a number above the last sent one, or any number before the first send".
    pub unsent: bool,
    // 5: "the call's rule adds 1 to a counter that is 2^64 - 1".
    pub full: bool,
}

impl Rows {
    // None of the rows holds.
    pub const NONE: Rows = Rows {
        stored: false,
        argument: false,
        earlier: false,
        lower: false,
        unsent: false,
        full: false,
    };
}

// The row of the table that refuses a call, where it isn't said which argument is at fault. It stands beside `Refusal`: a run
// finds the fault only where it has to answer it, and its row is a number of the compiler's, with no table.
#[derive(Clone, Copy, PartialEq, Eq)]
pub enum Cause {
    Stored = 1,
    Argument = 2,
    Earlier = 3,
    Lower = 4,
    Full = 5,
    Text = 6,
    Short = 7,
    Unsent = 10,
}

impl Cause {
    // Its number in the table.
    pub fn row(self) -> u64
        ensures { result ≡ cause_row self }
    {
        self as u64
    }

    // The refusal: row 2 names the fault.
    #[tactic(auto, unfolding(crate::specs::Faults::named))]
    pub fn named(self, blamed: u32) -> Refusal
        ensures row { row_of result ≡ cause_row self }
        ensures fault { fault_of result ≡ named (cause_row self) blamed }
    {
        match self {
            Cause::Stored => Refusal::OutOfBounds,
            Cause::Argument => Refusal::BadArgument(blamed),
            Cause::Earlier => Refusal::EarlierMoment,
            Cause::Lower => Refusal::LowerTotal,
            Cause::Full => Refusal::FullCounter,
            Cause::Text => Refusal::BadText,
            Cause::Short => Refusal::ShortOutput,
            Cause::Unsent => Refusal::NeverSent,
        }
    }
}

// A run finds the argument at fault in the call's words.
impl From<Refusal> for Cause {
    ghost from_gives = { λ r c. cause_row c ≡ row_of r };

    fn from(refusal: Refusal) -> Cause {
        match refusal {
            Refusal::OutOfBounds => Cause::Stored,
            Refusal::BadArgument(_) => Cause::Argument,
            Refusal::EarlierMoment => Cause::Earlier,
            Refusal::LowerTotal => Cause::Lower,
            Refusal::FullCounter => Cause::Full,
            Refusal::BadText => Cause::Text,
            Refusal::ShortOutput => Cause::Short,
            Refusal::NeverSent => Cause::Unsent,
        }
    }
}

impl Rows {
    // Refused for the first row that holds, in the order in which they are asked. A run of calls finds the fault, where there
    // is one, in the call's words.
    #[tactic(auto, unfolding(crate::specs::Refusals::row_of, crate::specs::Refusals::up_to_four))]
    pub fn first(self) -> Result<(), Cause>
        ensures { caused result ≡ first_of self }
    {
        if self.stored {
            return Err(Cause::Stored);
        }
        if self.argument {
            return Err(Cause::Argument);
        }
        if self.earlier {
            return Err(Cause::Earlier);
        }
        if self.lower {
            return Err(Cause::Lower);
        }
        if self.unsent {
            return Err(Cause::Unsent);
        }
        if self.full {
            return Err(Cause::Full);
        }
        Ok(())
    }
}

// The reply of the first row that holds. Row 2 names the fault.
#[tactic(auto, unfolding(crate::specs::Faults::named))]
pub fn refusal(rows: Rows, blamed: u32) -> Result<(), Refusal>
    ensures reply { number result ≡ first_of rows }
    ensures fault { fault result ≡ named (first_of rows) blamed }
{
    rows.first().map_err(|cause| cause.named(blamed))
}

// The reply, or `ShortOutput` where it is done and the output is too short.
#[tactic(auto, unfolding(crate::specs::Refusals::or_short))]
pub fn or_short(reply: Result<(), Refusal>, short: bool) -> Result<(), Refusal>
    ensures reply { number result ≡ or_short (number reply) short }
    ensures fault { fault result ≡ fault reply }
{
    reply?;
    if short {
        return Err(Refusal::ShortOutput);
    }
    Ok(())
}
