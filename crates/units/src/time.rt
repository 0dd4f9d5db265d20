// A moment and a length of time, in nanoseconds, never mixed.
ghost use Rattle.std.specs.Prelude.{◌≡◌};
ghost use Rattle.units.specs.Time.{plus, since, is_before};

#[derive(Clone, Copy, PartialEq, Eq, PartialOrd, Ord)]
pub struct Moment(pub u64);

#[derive(Clone, Copy, PartialEq, Eq, PartialOrd, Ord)]
pub struct Duration(pub u64);

impl Moment {
    // The moment that much later, or the last moment there is.
    pub fn plus(self, period: Duration) -> Moment
        ensures { result ≡ plus self period }
    {
        Moment(self.0.saturating_add(period.0))
    }

    // How long ago the other moment was: 0 where it is later.
    pub fn since(self, earlier: Moment) -> Duration
        ensures { result ≡ since self earlier }
    {
        Duration(self.0.saturating_sub(earlier.0))
    }

    // Whether this moment is earlier than the other: the derived `<`, with what it says as the definitions say it.
    pub fn is_before(self, other: Moment) -> bool
        ensures { result ≡ is_before self other }
    {
        self < other
    }
}
