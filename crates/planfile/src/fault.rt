// What is wrong with the bytes of a plan or of its values.
ghost use Rattle.std.specs.Prelude.{◌≡◌, Some};
ghost use Rattle.planfile.specs.Faults.{number, place, fault_text};
ghost use Rattle.planfile.specs.declared.fault.Fault.TheVariants.{Refused as Refusing};

use crate::placed::Placed;
use std::error::Error;
use std::fmt;

/// What is wrong with bytes, and where.
#[derive(Clone, Copy, PartialEq, Eq, Debug)]
pub enum Fault {
    /// The bytes end before the number does that begins at the place.
    Incomplete { place: usize },
    /// Bytes follow the last section, the first of them at the place.
    Trailing { place: usize },
    /// What the bytes say is refused.
    Refused(Placed),
}

impl Fault {
    /// The number of the condition: a number, since that is what users look up. Defined by `number` of specs/Faults.
    pub fn number(&self) -> u8
        ensures { result ≡ number self.now }
    {
        match self {
            Fault::Incomplete { .. } => 1,
            Fault::Trailing { .. } => 3,
            Fault::Refused(placed) => placed.refusal.number(),
        }
    }

    /// The byte at which what is refused begins, counted from 0; and 0 where a store has another length, which is no byte.
    /// Defined by `place` of specs/Faults.
    pub fn place(&self) -> usize
        ensures { result ≡ place self.now }
    {
        match self {
            Fault::Incomplete { place } | Fault::Trailing { place } => *place,
            Fault::Refused(placed) => placed.place,
        }
    }
}

impl From<Placed> for Fault {
    ghost from_gives = { λ e fault. fault ≡ Refusing e };

    fn from(e: Placed) -> Fault {
        Fault::Refused(e)
    }
}

impl fmt::Display for Fault {
    ghost output = { λ fault. Some (fault_text fault) };

    fn fmt<W: fmt::Write>(&self, f: &mut fmt::Formatter<W>) -> fmt::Result {
        write!(f, "refused {} at {}", self.number(), self.place())
    }
}

impl Error for Fault {}
