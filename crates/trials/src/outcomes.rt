// What the trial runs look at in an outcome.
use scan::refusal::Refusal;

// The number and the place of a refusal, where there is one: what docs/SPECIFICATION.md promises of it.
pub(crate) fn refused<T: Drop>(made: Result<T, Refusal>) -> Option<(u8, usize)> {
    let refusal = made.err()?;
    Some((refusal.number(), refusal.place()))
}

// The number and the place of a refusal, beside what is known of it.
pub(crate) fn told<T: Drop>(made: Result<T, Refusal>) -> Option<(u8, usize, Refusal)> {
    let refusal = made.err()?;
    Some((refusal.number(), refusal.place(), refusal))
}
