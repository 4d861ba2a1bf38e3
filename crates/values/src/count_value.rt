ghost use Rattle.std.specs.Prelude.{◌≡◌, refl, Some};
ghost use Rattle.values.specs.Counts.{count_ops, shown, bits_of, count_text};
ghost use Rattle.values.specs.CountLaws.{count_laws};

use crate::count::Count;
use crate::value::Value;
use std::fmt;

impl From<i64> for Count {
    ghost from_gives = { λ number count. count.bits ≡ bits_of number };

    fn from(number: i64) -> Count {
        Count {
            bits: number.cast_unsigned(),
        }
    }
}

impl From<Count> for i64 {
    ghost from_gives = { λ count number. number ≡ shown count };

    fn from(count: Count) -> i64 {
        count.bits.cast_signed()
    }
}

impl fmt::Display for Count {
    ghost output = { λ count. Some (count_text count) };

    fn fmt<W: fmt::Write>(&self, f: &mut fmt::Formatter<W>) -> fmt::Result {
        write!(f, "{}", i64::from(*self))
    }
}

// As by `{}`: what a Count is, and not how it is kept.
impl fmt::Debug for Count {
    ghost debug_output = { λ count. Some (count_text count) };

    fn fmt<W: fmt::Write>(&self, f: &mut fmt::Formatter<W>) -> fmt::Result {
        write!(f, "{self}")
    }
}

impl Value for Count {
    const ZERO: Count = Count { bits: 0 };

    ghost ZERO = { count_ops.zero };

    ghost ops = { count_ops };

    ghost zero_named = { refl };

    ghost lawful = { count_laws };

    #[tactic(auto, using(crate::specs::CountLaws::same))]
    fn plus(self, other: Count) -> Count {
        Count {
            bits: self.bits.wrapping_add(other.bits),
        }
    }

    #[tactic(auto, using(crate::specs::CountLaws::same))]
    fn times(self, other: Count) -> Count {
        Count {
            bits: self.bits.wrapping_mul(other.bits),
        }
    }

    #[tactic(auto, using(crate::specs::CountLaws::same))]
    fn multiple(self, n: u64) -> Count {
        Count {
            bits: self.bits.wrapping_mul(n),
        }
    }
}
