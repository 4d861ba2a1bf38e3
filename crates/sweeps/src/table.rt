ghost use Rattle.std.specs.Prelude.{◌≡◌, ℕ, ◌<◌, length, pos, slice_index_or};

// A table with each edge computed once, so that no weight costs a division.
pub(crate) fn filled<F: Fn(usize) -> i64>(table: &mut [i64], edge: F) -> &[i64]
    requires { (i : ℕ) → i < length table.old → F.pre edge i }
    ensures length { length result.now ≡ length table.old }
    ensures edges { (i : ℕ) → i < length result.now → F.post edge i (slice_index_or result.now i (pos 0)) }
{
    for (i, place) in table.iter_mut().enumerate() {
        *place = edge(i);
    }
    table
}
