use scan::refusal::Refusal;

/// A refusal, and the byte at which what is refused begins, or 0 where that is a store.
#[derive(Clone, Copy, PartialEq, Eq, Debug)]
pub struct Placed {
    pub refusal: Refusal,
    pub place: usize,
}
