// A number that tells results apart.
use values::count::Count;

// The hash of the cells of all views, and then of the voxels.
pub(crate) fn of(working: &[Count], volume: &[Count]) -> u64 {
    continued(continued(0, working), volume)
}

fn continued(hash: u64, results: &[Count]) -> u64 {
    results.iter().fold(hash, |hash, value| {
        hash.wrapping_mul(31).wrapping_add(value.bits)
    })
}
