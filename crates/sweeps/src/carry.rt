ghost use Rattle.std.specs.Prelude.{◌≡◌, ℕ, ◌*◌, ◌<◌, length};
ghost use Rattle.calls.specs.Stores.{at};
ghost use Rattle.sweeps.specs.Strips.{strip_cells, cell_overlap, strip_share, Inside, total, Gained};

use crate::strip::Strip;
use values::value::Value;

// That a strip lies in its store stays a clause: a type of both would be needed once for `&` and once for `&mut`.
impl Strip<'_> {
    // How far a cell overlaps the stretch.
    fn share(self, cell: usize) -> u64
        requires { cell < strip_cells self }
        ensures { result ≡ cell_overlap self.entry cell }
    {
        self.line.edges.stretch(cell).overlap(self.over)
    }

    // The sum over the strip of the multiples of its values by their overlaps.
    fn gather<V: Value>(self, from: &[V]) -> V
        requires { Inside self (length from.now) }
        ensures { result ≡ total V.Value.ops from.now (strip_share self.entry) }
    {
        let mut sum = V::ZERO;
        // The number of a cell gives its place and its share: a chain would count it too, and be no plainer.
        for cell in self.first..self.last {
            let place = self.line.start + cell * self.line.stride;
            sum = sum.plus(from[place].multiple(self.share(cell)));
        }
        sum
    }

    // Adds to each value of the strip the multiple of `value` by its overlap.
    fn scatter<V: Value>(self, to: &mut [V], value: V)
        requires { Inside self (length to.old) }
        ensures { (p : ℕ) → p < length to.old → at V.Value.ops to.new p ≡ V.Value.ops.plus (at V.Value.ops to.old p) (V.Value.ops.multiple value (strip_share self.entry p)) }
    {
        // As in `gather`.
        for cell in self.first..self.last {
            let place = self.line.start + cell * self.line.stride;
            to[place] = to[place].plus(value.multiple(self.share(cell)));
        }
    }
}

// Carries what one strip holds to another, each cell weighted by its overlap, times the factor.
pub(crate) fn carry<V: Value>(
    factor: V,
    from: &[V],
    source: Strip<'_>,
    to: &mut [V],
    target: Strip<'_>,
)
    requires source { Inside source (length from.now) }
    requires target { Inside target (length to.old) }
    ensures { Gained V.Value.ops factor from.now (λ q p. strip_share source.entry q * strip_share target.entry p) to.old to.new }
{
    target.scatter(to, factor.times(source.gather(from)));
}
