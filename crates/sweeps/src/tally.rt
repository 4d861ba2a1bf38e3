ghost use Rattle.std.specs.Prelude.{◌≡◌};
ghost use Rattle.sweeps.specs.Tally.{tallied};

use values::reach::Reach;

/// How many values of a store of any length are yes. Defined by `tallied` of specs/Tally.
pub fn tally(store: &[Reach]) -> usize
    ensures { result ≡ tallied store.now }
{
    store.iter().filter(|value| value.yes).count()
}
