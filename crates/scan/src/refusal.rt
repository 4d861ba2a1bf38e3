// Why a call is refused: a case to each condition, with what it knows.
ghost use Rattle.std.specs.Prelude.{◌≡◌, Some};
ghost use Rattle.scan.specs.Refusals.{number, place, refusal_text};
ghost use Rattle.scan.specs.declared.refusal.Refusal.TheVariants.{StepOutOfRange};

use crate::scan_axis::ScanAxis;
use geometry::heading::Heading;
use geometry::no_step::NoStep;
use geometry::step::STEPS;
use std::error::Error;
use std::fmt;

/// Which of the caller's stores.
#[derive(Clone, Copy, PartialEq, Eq, Debug)]
pub enum Store {
    Volume,
    Measured,
    Working,
}

/// The condition under which a call is refused.
#[derive(Clone, Copy, PartialEq, Eq, Debug)]
pub enum Refusal {
    /// A count lies outside its limits.
    Count {
        found: usize,
        least: usize,
        most: usize,
    },
    /// A count within its limits is no multiple of `of`, how many numbers go together.
    NotMultiple {
        found: usize,
        of: usize,
    },
    /// An edge does not rise above its neighbour before it.
    NotRising {
        edge: usize,
        before: i64,
        at: i64,
    },
    /// An edge lies outside −4,194,304 to 4,194,304.
    OutOfRange {
        edge: usize,
        at: i64,
    },
    /// The source stands outside 1 to 2^24 from the rotation axis.
    SourceDistance {
        at: i64,
    },
    /// The panel stands nearer the source than the rotation axis does, or more than 2^25 from the source.
    PanelDistance {
        at: i64,
        source: i64,
    },
    /// The source is too near: D is no more than twice the widest |edge| of x and y.
    SourceTooNear {
        source: i64,
        widest: i64,
    },
    /// An edge of the columns lies as far from 0 as the panel stands from the source, or farther.
    ColumnBeyond {
        edge: usize,
        at: i64,
        panel: i64,
    },
    /// A step is below 0, or not below the number of directions.
    StepOutOfRange {
        step: i64,
        directions: usize,
    },
    /// A direction of a list is not accepted: its c² + s² is more than 32,768 off 2^28.
    OffCircle {
        direction: usize,
        heading: Heading,
    },
    /// The draft has all the views that it may have.
    DraftFull {
        views: usize,
    },
    /// There is no view of this number.
    NoView {
        view: usize,
        views: usize,
    },
    /// A store has another length than the plan asks for.
    StoreLength {
        store: Store,
        found: usize,
        wanted: usize,
    },
    /// Along an axis, a box has its lower bound above its upper, or its upper bound above the cells of the axis.
    BoxBounds {
        axis: ScanAxis,
        lower: usize,
        upper: usize,
        cells: usize,
    },
}

impl Refusal {
    /// The number of the condition: a number, since that is what users look up. Defined by `number` of specs/Refusals.
    pub fn number(&self) -> u8
        ensures { result ≡ number self.now }
    {
        match self {
            Refusal::Count { .. } | Refusal::NotMultiple { .. } => 2,
            Refusal::NotRising { .. } => 4,
            Refusal::OutOfRange { .. } => 5,
            Refusal::SourceDistance { .. } | Refusal::PanelDistance { .. } => 6,
            Refusal::SourceTooNear { .. } => 7,
            Refusal::ColumnBeyond { .. } => 8,
            Refusal::StepOutOfRange { .. } => 9,
            Refusal::OffCircle { .. } => 11,
            Refusal::DraftFull { .. } => 21,
            Refusal::NoView { .. } => 22,
            Refusal::StoreLength { .. } => 23,
            Refusal::BoxBounds { .. } => 24,
        }
    }

    /// Which of several of its kind the condition is about: the number of an edge, 0 for D and 1 for F, and else 0. Defined
    /// by `place` of specs/Refusals.
    pub fn place(&self) -> usize
        ensures { result ≡ place self.now }
    {
        match self {
            Refusal::NotRising { edge, .. }
            | Refusal::OutOfRange { edge, .. }
            | Refusal::ColumnBeyond { edge, .. } => *edge,
            Refusal::PanelDistance { .. } => 1,
            Refusal::Count { .. }
            | Refusal::NotMultiple { .. }
            | Refusal::SourceDistance { .. }
            | Refusal::SourceTooNear { .. }
            | Refusal::StepOutOfRange { .. }
            | Refusal::OffCircle { .. }
            | Refusal::DraftFull { .. }
            | Refusal::NoView { .. }
            | Refusal::StoreLength { .. }
            | Refusal::BoxBounds { .. } => 0,
        }
    }
}

impl From<NoStep> for Refusal {
    ghost from_gives = { λ e r. r ≡ StepOutOfRange e.number 64 };

    fn from(e: NoStep) -> Refusal {
        Refusal::StepOutOfRange {
            step: i64::from(e.number),
            directions: STEPS,
        }
    }
}

impl fmt::Display for Refusal {
    ghost output = { λ refusal. Some (refusal_text refusal) };

    fn fmt<W: fmt::Write>(&self, f: &mut fmt::Formatter<W>) -> fmt::Result {
        write!(f, "refused by {} at place {}", self.number(), self.place())
    }
}

impl Error for Refusal {}
