ghost use Rattle.std.specs.Prelude.{ℕ, ◌<◌, length};
ghost use Rattle.calls.specs.Stores.{at};

use values::value::Value;

// Every value of a store becomes what the change makes of its place and itself: the one loop of all such changes.
pub(crate) fn alter<V: Value, F: Fn(usize, V) -> V>(store: &mut [V], change: F)
    requires { (i : ℕ) (value : V) → i < length store.old → F.pre change i value }
    ensures { (i : ℕ) → i < length store.old → F.post change i (at V.Value.ops store.old i) (at V.Value.ops store.new i) }
{
    for (i, value) in store.iter_mut().enumerate() {
        *value = change(i, *value);
    }
}
