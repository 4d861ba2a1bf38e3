ghost use Rattle.std.specs.Prelude.{refl, Some};
ghost use Rattle.values.specs.Reaches.{reach_ops, reach_text};
ghost use Rattle.values.specs.ReachLaws.{reach_laws};

use crate::value::Value;
use std::fmt;

/// Whether something is reached: yes or no.
#[derive(Clone, Copy, PartialEq, Eq, Default)]
pub struct Reach {
    pub yes: bool,
}

impl fmt::Debug for Reach {
    ghost debug_output = { λ reach. Some (reach_text reach) };

    fn fmt<W: fmt::Write>(&self, f: &mut fmt::Formatter<W>) -> fmt::Result {
        if self.yes {
            write!(f, "yes")
        } else {
            write!(f, "no")
        }
    }
}

impl Value for Reach {
    const ZERO: Reach = Reach { yes: false };

    ghost ZERO = { reach_ops.zero };

    ghost ops = { reach_ops };

    ghost zero_named = { refl };

    ghost lawful = { reach_laws };

    fn plus(self, other: Reach) -> Reach {
        Reach {
            yes: self.yes | other.yes,
        }
    }

    fn times(self, other: Reach) -> Reach {
        Reach {
            yes: self.yes & other.yes,
        }
    }

    fn multiple(self, n: u64) -> Reach {
        if n == 0 { Reach { yes: false } } else { self }
    }
}
