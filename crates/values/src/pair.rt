ghost use Rattle.std.specs.Prelude.{refl, Some};
ghost use Rattle.values.specs.Pairs.{pair_ops, pair_text};
ghost use Rattle.values.specs.PairLaws.{pair_laws};

use crate::count::Count;
use crate::value::Value;
use std::fmt;

/// The Counts of two materials side by side.
#[derive(Clone, Copy, PartialEq, Eq, Default)]
pub struct Pair {
    pub first: Count,
    pub second: Count,
}

impl fmt::Debug for Pair {
    ghost debug_output = { λ pair. Some (pair_text pair) };

    fn fmt<W: fmt::Write>(&self, f: &mut fmt::Formatter<W>) -> fmt::Result {
        write!(f, "({}, {})", self.first, self.second)
    }
}

impl Value for Pair {
    // Written out: the value of a constant cannot name a constant of a trait yet.
    const ZERO: Pair = Pair {
        first: Count { bits: 0 },
        second: Count { bits: 0 },
    };

    ghost ZERO = { pair_ops.zero };

    ghost ops = { pair_ops };

    ghost zero_named = { refl };

    ghost lawful = { pair_laws };

    fn plus(self, other: Pair) -> Pair {
        Pair {
            first: self.first.plus(other.first),
            second: self.second.plus(other.second),
        }
    }

    fn times(self, other: Pair) -> Pair {
        Pair {
            first: self.first.times(other.first),
            second: self.second.times(other.second),
        }
    }

    fn multiple(self, n: u64) -> Pair {
        Pair {
            first: self.first.multiple(n),
            second: self.second.multiple(n),
        }
    }
}
