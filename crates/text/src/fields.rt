// The ten fields of a line after its kind, split at commas.
ghost use Rattle.std.specs.Prelude.{◌≡◌};
ghost use Rattle.text.specs.Fields.{fields, rules_of, accepts, fault_from};
ghost use Rattle.text.specs.Inner.{cells_of};

use crate::number::Cell;
use crate::word::Kind;

// The fields of a text, where they are ten.
pub(crate) fn cells(s: &[u8]) -> Option<[Cell; 10]>
    ensures { result ≡ cells_of (fields s.now) }
{
    let mut cells = [Cell::Empty; 10];
    let mut count: usize = 0;
    for field in s.split(|b| *b == b',') {
        if count == 10 {
            return None;
        }
        cells[count] = Cell::new(field);
        count += 1;
    }
    if count == 10 { Some(cells) } else { None }
}

// What a field may be: empty, a number, either, or the number 0 or 1.
#[derive(Clone, Copy, Debug, PartialEq, Eq)]
pub enum Rule {
    Blank,
    Filled,
    Either,
    Flag,
}

impl Rule {
    fn accepts(self, cell: Cell) -> bool
        ensures { result ≡ accepts self cell }
    {
        match (self, cell) {
            (Rule::Blank | Rule::Either, Cell::Empty) => true,
            (Rule::Filled | Rule::Either, Cell::Number(_)) => true,
            (Rule::Flag, Cell::Number(n)) => n < 2,
            _ => false,
        }
    }
}

impl Kind {
    // What each field of a line of this kind may be.
    pub(crate) fn rules(self) -> [Rule; 10]
        ensures { result ≡ rules_of self }
    {
        use Rule::{Blank, Either, Filled, Flag};

        match self {
            Kind::Start => [
                Filled, Blank, Blank, Blank, Blank, Blank, Blank, Blank, Filled, Blank,
            ],
            Kind::Sent => [
                Filled, Blank, Filled, Filled, Filled, Blank, Blank, Blank, Blank, Blank,
            ],
            Kind::Event => [
                Filled, Filled, Filled, Either, Blank, Filled, Filled, Either, Either, Flag,
            ],
        }
    }
}

// The first field at fault, counted from 2.
pub(crate) fn fault(rules: &[Rule; 10], cells: &[Cell; 10]) -> Option<u64>
    ensures { result ≡ fault_from 2 rules.now cells.now }
{
    for k in 0..10 {
        if !rules[k].accepts(cells[k]) {
            return Some(k as u64 + 2);
        }
    }
    None
}
