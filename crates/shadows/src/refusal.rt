// Why there is no shadow of a file.
ghost use Rattle.std.specs.Prelude.{◌≡◌, Some};
ghost use Rattle.shadows.specs.Refusals.{number, place, refusal_text};
ghost use Rattle.shadows.specs.declared.refusal.Refusal.TheVariants.{File as Faulty};

use planfile::fault::Fault;
use std::error::Error;
use std::fmt;

/// Why there is no shadow of a file.
#[derive(Clone, Copy, PartialEq, Eq, Debug)]
pub enum Refusal {
    /// The file holds no plan, or not its voxels.
    File(Fault),
    /// The plan has more voxels, or more cells over all its views, than the program takes. The section of the voxels begins
    /// at the place.
    TooLarge {
        voxels: usize,
        cells: usize,
        place: usize,
    },
}

impl Refusal {
    /// The number of the condition: a number, since that is what users look up. Defined by `number` of specs/Refusals.
    pub fn number(&self) -> u8
        ensures { result ≡ number self.now }
    {
        match self {
            Refusal::File(fault) => fault.number(),
            Refusal::TooLarge { .. } => 10,
        }
    }

    /// The byte at which what is refused begins, counted from 0. Defined by `place` of specs/Refusals.
    pub fn place(&self) -> usize
        ensures { result ≡ place self.now }
    {
        match self {
            Refusal::File(fault) => fault.place(),
            Refusal::TooLarge { place, .. } => *place,
        }
    }
}

impl From<Fault> for Refusal {
    ghost from_gives = { λ e refusal. refusal ≡ Faulty e };

    fn from(e: Fault) -> Refusal {
        Refusal::File(e)
    }
}

impl fmt::Display for Refusal {
    ghost output = { λ refusal. Some (refusal_text refusal) };

    fn fmt<W: fmt::Write>(&self, f: &mut fmt::Formatter<W>) -> fmt::Result {
        write!(f, "refused {} at {}", self.number(), self.place())
    }
}

impl Error for Refusal {}
