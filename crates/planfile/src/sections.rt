// The sections of a plan, read one after the other.
ghost use Rattle.std.specs.Prelude.{◌≡◌, ◌^◌, ◌<◌, ◌≤◌, length, IfSome, OnOk};
ghost use Rattle.scan.specs.ViewDirections.{AllAccepted};
ghost use Rattle.scan.specs.Verdicts.{Verdict};
ghost use Rattle.planfile.specs.Numbers.{numbers_in};
ghost use Rattle.planfile.specs.Sections.{section_at, entry, end_of, start};
ghost use Rattle.planfile.specs.Kept.{AxesOf};
ghost use Rattle.planfile.specs.Pairs.{headings_in};
ghost use Rattle.planfile.specs.FileChecks.{first_no_step, distances_section, axis_section, directions_section, steps_section, axes_check};

use crate::axes::Axes;
use crate::bytes_axis::BytesAxis;
use crate::cursor::Cursor;
use crate::fault::Fault;
use crate::numbers::Numbers;
use crate::section::refused_number;
use geometry::distances::Distances;
use scan::axis::{Axis, MOST_EDGES};
use scan::directions::{Headings, MOST_DIRECTIONS, first_off_circle};
use scan::draft_checks::check_distances;
use scan::plan::MOST_VIEWS;
use scan::refusal::Refusal;

// The first of some numbers that is no step: below 0, or not below the number of directions.
fn first_no_step(numbers: &Numbers<'_>, directions: usize) -> Option<usize>
    requires { directions ≤ 1024 }
    ensures value { result ≡ first_no_step directions (numbers_in numbers.now.bytes.now) }
    ensures within { IfSome result (λ i. i < length (numbers_in numbers.now.bytes.now)) }
{
    // `as`, since there are at most 1,024.
    let end = directions as i32;
    (0..numbers.len()).find(|&i| !(0..end).contains(&numbers.number(i)))
}

impl<'a> Cursor<'a> {
    // Reads the section of the distances (1, 2, 1, 6 for D, 6 for F).
    #[tactic(auto, using(std::proofs::lemmas::Result::err_from_is_err_and), unfolding(crate::specs::FileChecks::distances_section))]
    pub(crate) fn distances(&mut self) -> Result<Distances, Fault>
        ensures answer { let b = self.old.bytes.now in let p = self.old.offset in
            Verdict (distances_section b p) (λ d. (d.source ≡ entry b p 0) × (d.panel ≡ entry b p 1)) result }
        ensures bytes { self.new.bytes.now ≡ self.old.bytes.now }
        ensures moved { OnOk result (self.new.offset ≡ end_of self.old.bytes.now self.old.offset) }
    {
        let section = self.section(2, 2)?;
        match check_distances(section.numbers.number(0), section.numbers.number(1)) {
            Ok(distances) => Ok(distances),
            Err(refusal) => Err(refused_number(section.start, refusal.place(), refusal).into()),
        }
    }

    // Reads the section of an axis (1, 2, 1, 5, 4).
    #[tactic(auto, using(std::proofs::lemmas::Result::err_from_is_err_and), unfolding(crate::specs::FileChecks::axis_section))]
    pub(crate) fn axis(&mut self) -> Result<BytesAxis<'a>, Fault>
        ensures answer { let b = self.old.bytes.now in let p = self.old.offset in
            Verdict (axis_section b p) (λ a. (⟦<BytesAxis<'static> as Axis>⟧.edges a ≡ section_at b p) × (end_of b p < 2 ^ 64)) result }
        ensures bytes { self.new.bytes.now ≡ self.old.bytes.now }
        ensures moved { OnOk result (self.new.offset ≡ end_of self.old.bytes.now self.old.offset) }
    {
        let section = self.section(2, MOST_EDGES)?;
        match BytesAxis::new(section.numbers) {
            Ok(axis) => Ok(axis),
            Err(refusal) => Err(refused_number(section.start, refusal.place(), refusal).into()),
        }
    }

    // Reads the section of the directions (1, 2, 2, 1, 11).
    #[tactic(auto, using(std::proofs::lemmas::Result::err_from_is_err_and), unfolding(crate::specs::FileChecks::directions_section))]
    pub(crate) fn directions(&mut self) -> Result<Numbers<'a>, Fault>
        ensures answer { let b = self.old.bytes.now in let p = self.old.offset in
            Verdict (directions_section b p) (λ headings. (numbers_in headings.bytes.now ≡ section_at b p) × AllAccepted (headings_in (numbers_in headings.bytes.now))) result }
        ensures bytes { self.new.bytes.now ≡ self.old.bytes.now }
        ensures moved { OnOk result (self.new.offset ≡ end_of self.old.bytes.now self.old.offset) }
    {
        let section = self.pairs(2 * MOST_DIRECTIONS)?;
        match first_off_circle(&section.numbers) {
            None => Ok(section.numbers),
            Some(direction) => {
                let heading = section.numbers.heading(direction);
                let refusal = Refusal::OffCircle { direction, heading };
                Err(refused_number(section.start, 2 * direction, refusal).into())
            }
        }
    }

    // Reads the section of the steps, where there are so many directions (1, 2, 1, 9).
    #[tactic(auto, using(std::proofs::lemmas::Result::err_from_is_err_and), unfolding(crate::specs::FileChecks::steps_section))]
    pub(crate) fn steps(&mut self, directions: usize) -> Result<Numbers<'a>, Fault>
        requires { directions ≤ 1024 }
        ensures answer { let b = self.old.bytes.now in let p = self.old.offset in
            Verdict (steps_section b p directions) (λ steps. (numbers_in steps.bytes.now ≡ section_at b p) × (first_no_step directions (numbers_in steps.bytes.now) ≡ None) × (length (numbers_in steps.bytes.now) ≤ 1024) × (end_of b p ≤ length b)) result }
        ensures bytes { self.new.bytes.now ≡ self.old.bytes.now }
        ensures moved { OnOk result (self.new.offset ≡ end_of self.old.bytes.now self.old.offset) }
    {
        let section = self.section(0, MOST_VIEWS)?;
        match first_no_step(&section.numbers, directions) {
            None => Ok(section.numbers),
            Some(i) => {
                let step = i64::from(section.numbers.number(i));
                let refusal = Refusal::StepOutOfRange { step, directions };
                Err(refused_number(section.start, i, refusal).into())
            }
        }
    }

    // Reads the distances and the five axes, section by section.
    #[tactic(auto, using(std::proofs::lemmas::Result::err_from_is_err_and), unfolding(crate::specs::FileChecks::axes_check, crate::specs::Sections::start))]
    pub(crate) fn axes(&mut self) -> Result<Axes<'a>, Fault>
        requires { self.old.offset ≡ 0 }
        ensures answer { Verdict (axes_check self.old.bytes.now) (λ axes. AxesOf self.old.bytes.now axes) result }
        ensures bytes { self.new.bytes.now ≡ self.old.bytes.now }
        ensures moved { OnOk result (self.new.offset ≡ start self.old.bytes.now 6) }
    {
        let distances = self.distances()?;
        let x = self.axis()?;
        let y = self.axis()?;
        let z = self.axis()?;
        let column_start = self.offset;
        let column = self.axis()?;
        let row = self.axis()?;
        Ok(Axes {
            distances,
            x,
            y,
            z,
            column_start,
            column,
            row,
        })
    }
}
