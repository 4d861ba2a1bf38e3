ghost use Rattle.std.specs.Prelude.{◌≡◌};
ghost use Rattle.calls.specs.Rows.{mirrored};

use crate::call::Call;

/// Makes a row its mirrored row: the calls from last to first, each mirrored. Defined by `mirrored` of specs/Rows.
pub fn mirror<V: Copy>(row: &mut [Call<V>])
    ensures { row.new ≡ mirrored row.old }
{
    row.reverse();
    for call in row.iter_mut() {
        *call = call.mirrored();
    }
}
