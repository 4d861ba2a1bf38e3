ghost use Rattle.std.specs.Prelude.{◌≡◌};
ghost use Rattle.values.specs.Laws.{Ops, Laws};

/// A kind of value: it can be added, multiplied, and taken a number of times. Every operation answers at every value. The
/// laws are `Laws` of specs/Laws, and the theory of sums, sweeps and rows uses no others.
pub trait Value: Copy {
    /// The kind's zero, from which sums start.
    const ZERO: Self;

    // The constant, by a name that clauses can use.
    ghost ZERO: { Self };

    // What the zero, the sum, the product and the multiple mean.
    ghost ops: { Ops Self };

    /// The sum.
    fn plus(self, other: Self) -> Self
        ensures { result ≡ ops.plus self other };

    /// The product.
    fn times(self, other: Self) -> Self
        ensures { result ≡ ops.times self other };

    /// The multiple by a whole number: so many times the value, added up.
    fn multiple(self, n: u64) -> Self
        ensures { result ≡ ops.multiple self n };

    // The constant is the zero of the operations.
    ghost zero_named: { ZERO ≡ ops.zero };

    // What each kind must show.
    ghost lawful: { Laws ops };
}
