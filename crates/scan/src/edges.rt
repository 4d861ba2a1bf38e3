// The checks that the edges of every kind of axis pass before they are an axis.
ghost use Rattle.std.specs.Prelude.{◌≡◌, ◌+◌, ◌^◌, ◌<◌, List, length, ℤ, IfSome};
ghost use Rattle.scan.specs.Axes.{Proper};
ghost use Rattle.scan.specs.Verdicts.{Verdict};
ghost use Rattle.scan.specs.AxisChecks.{edge_or_zero, count_check, first_outside, first_not_rising, edges_check, listed_check};

use crate::axis::MOST_EDGES;
use crate::refusal::Refusal;
use geometry::edge::FARTHEST_EDGE;

/// Edges by number, of which nothing is known yet.
pub trait Edges {
    ghost edges: { Self → List ℤ };

    /// How many there are.
    fn count(&self) -> usize
        ensures { result ≡ length (edges self.now) };

    /// Edge i; past the last, 0.
    fn get(&self, i: usize) -> i64
        ensures { result ≡ edge_or_zero (edges self.now) i };
}

/// Refuses a count outside its limits (2), by `count_check` of specs/AxisChecks.
pub fn check_count(found: usize, least: usize, most: usize) -> Result<(), Refusal>
    ensures { Verdict (count_check found least most) (λ _. Unit {0}) result }
{
    if (least..=most).contains(&found) {
        Ok(())
    } else {
        Err(Refusal::Count { found, least, most })
    }
}

// The first edge more than the limit from 0.
fn first_outside<E: Edges>(edges: &E, limit: u64) -> Option<usize>
    ensures { result ≡ first_outside limit (E.edges edges.now) }
{
    (0..edges.count()).find(|&i| edges.get(i).unsigned_abs() > limit)
}

// The first cell whose upper edge is not above its lower one.
fn first_not_rising<E: Edges>(edges: &E) -> Option<usize>
    ensures value { result ≡ first_not_rising (E.edges edges.now) }
    ensures size { IfSome result (λ i. i + 1 < 2 ^ 64) }
{
    (0..edges.count().saturating_sub(1)).find(
        |&i|
            requires size { i + 1 < 2 ^ 64 }
        { edges.get(i + 1) <= edges.get(i) },
    )
}

// Refuses edges that lie out of range (5), and then those that do not rise (4).
pub(crate) fn check_edges<E: Edges>(edges: &E) -> Result<(), Refusal>
    ensures { Verdict (edges_check (E.edges edges.now)) (λ _. Unit {0}) result }
{
    if let Some(edge) = first_outside(edges, FARTHEST_EDGE) {
        return Err(Refusal::OutOfRange {
            edge,
            at: edges.get(edge),
        });
    }
    if let Some(i) = first_not_rising(edges) {
        return Err(Refusal::NotRising {
            edge: i + 1,
            before: edges.get(i),
            at: edges.get(i + 1),
        });
    }
    Ok(())
}

/// The checks of an axis whose edges are listed, wherever they are kept: 2, 5, 4, by `listed_check` of specs/AxisChecks.
/// Edges that pass are those of an axis.
#[tactic(auto, using(crate::proofs::Propers::listed_proper))]
pub fn check_listed<E: Edges>(edges: &E) -> Result<(), Refusal>
    ensures { Verdict (listed_check (E.edges edges.now)) (λ _. Proper (E.edges edges.now)) result }
{
    check_count(edges.count(), 2, MOST_EDGES)?;
    check_edges(edges)
}
