ghost use Rattle.std.specs.Prelude.{◌≡◌, ◌+◌, ◌-◌, ◌*◌, ◌^◌, ◌<◌, ◌≤◌, length, OnOk};
ghost use Rattle.scan.specs.Verdicts.{Verdict};
ghost use Rattle.planfile.specs.Numbers.{count_at, numbers_from, numbers_in};
ghost use Rattle.planfile.specs.Sections.{section_at, end_of};
ghost use Rattle.planfile.specs.FileChecks.{whole_check, limits_check, numbers_check, section_check, even_check, pairs_check};

use crate::fault::Fault;
use crate::numbers::{Numbers, unsigned_at};
use crate::placed::Placed;
use crate::section::Section;
use scan::edges::check_count;
use scan::refusal::Refusal;

// Refuses an odd count of numbers that go two by two (2).
fn check_even(found: usize) -> Result<(), Refusal>
    ensures { Verdict (even_check found) (λ _. Unit {0}) result }
{
    if found % 2 != 0 {
        return Err(Refusal::NotMultiple { found, of: 2 });
    }
    Ok(())
}

// Lent bytes, and how far they are read. What is read is never copied.
#[derive(Clone, Copy)]
pub(crate) struct Cursor<'a> {
    pub(crate) bytes: &'a [u8],
    pub(crate) offset: usize,
}

impl<'a> Cursor<'a> {
    // How many bytes are not read yet.
    fn left(&self) -> usize
        ensures { result ≡ length self.now.bytes.now - self.now.offset }
    {
        self.bytes.len().saturating_sub(self.offset)
    }

    // Reads a count (1).
    fn count(&mut self) -> Result<usize, Fault>
        ensures answer { let b = self.old.bytes.now in let p = self.old.offset in
            Verdict (whole_check b p) (λ n. (n ≡ count_at b p) × (p + 4 ≤ length b)) result }
        ensures bytes { self.new.bytes.now ≡ self.old.bytes.now }
        ensures moved { OnOk result (self.new.offset ≡ self.old.offset + 4) }
    {
        if self.left() < 4 {
            return Err(Fault::Incomplete { place: self.offset });
        }
        let count = unsigned_at(self.bytes, self.offset);
        self.offset += 4;
        Ok(count as usize)
    }

    // Reads so many numbers (1).
    fn numbers(&mut self, n: usize) -> Result<Numbers<'a>, Fault>
        requires { self.old.offset ≤ length self.old.bytes.now }
        ensures answer { let b = self.old.bytes.now in let p = self.old.offset in
            Verdict (numbers_check b p n) (λ numbers. (numbers_in numbers.bytes.now ≡ numbers_from b p n) × (p + 4 * n ≤ length b)) result }
        ensures bytes { self.new.bytes.now ≡ self.old.bytes.now }
        ensures moved { OnOk result (self.new.offset ≡ self.old.offset + 4 * n) }
    {
        let whole = self.left() / 4;
        if whole < n {
            return Err(Fault::Incomplete {
                place: self.offset + 4 * whole,
            });
        }
        let start = self.offset;
        self.offset += 4 * n;
        Ok(Numbers {
            bytes: &self.bytes[start..self.offset],
        })
    }

    // Reads a count within its limits (1, 2).
    #[tactic(auto, using(std::proofs::lemmas::Result::err_from_is_err_and))]
    fn limited(&mut self, least: usize, most: usize) -> Result<usize, Fault>
        ensures answer { let b = self.old.bytes.now in let p = self.old.offset in
            Verdict (limits_check b p least most) (λ n. (n ≡ count_at b p) × (p + 4 ≤ length b)) result }
        ensures bytes { self.new.bytes.now ≡ self.old.bytes.now }
        ensures moved { OnOk result (self.new.offset ≡ self.old.offset + 4) }
    {
        let place = self.offset;
        let found = self.count()?;
        check_count(found, least, most).map_err(|refusal| Placed { refusal, place })?;
        Ok(found)
    }

    // Reads a section of a count within its limits (1, 2, 1).
    #[tactic(auto, using(std::proofs::lemmas::Result::err_from_is_err_and), unfolding(crate::specs::FileChecks::section_check, crate::specs::Sections::section_at, crate::specs::Sections::end_of))]
    pub(crate) fn section(&mut self, least: usize, most: usize) -> Result<Section<'a>, Fault>
        ensures answer { let b = self.old.bytes.now in let p = self.old.offset in
            Verdict (section_check b p least most) (λ section. (section.start ≡ p) × (numbers_in section.numbers.bytes.now ≡ section_at b p) × (end_of b p ≤ length b) × (end_of b p < 2 ^ 64)) result }
        ensures bytes { self.new.bytes.now ≡ self.old.bytes.now }
        ensures moved { OnOk result (self.new.offset ≡ end_of self.old.bytes.now self.old.offset) }
    {
        let start = self.offset;
        let found = self.limited(least, most)?;
        let numbers = self.numbers(found)?;
        Ok(Section { start, numbers })
    }

    // Reads a section of an even count within its limit (1, 2, 2, 1).
    #[tactic(auto, using(std::proofs::lemmas::Result::err_from_is_err_and), unfolding(crate::specs::FileChecks::pairs_check, crate::specs::Sections::section_at, crate::specs::Sections::end_of))]
    pub(crate) fn pairs(&mut self, most: usize) -> Result<Section<'a>, Fault>
        ensures answer { let b = self.old.bytes.now in let p = self.old.offset in
            Verdict (pairs_check b p most) (λ section. (section.start ≡ p) × (numbers_in section.numbers.bytes.now ≡ section_at b p) × (end_of b p ≤ length b) × (end_of b p < 2 ^ 64)) result }
        ensures bytes { self.new.bytes.now ≡ self.old.bytes.now }
        ensures moved { OnOk result (self.new.offset ≡ end_of self.old.bytes.now self.old.offset) }
    {
        let start = self.offset;
        let found = self.limited(0, most)?;
        check_even(found).map_err(|refusal| Placed {
            refusal,
            place: start,
        })?;
        let numbers = self.numbers(found)?;
        Ok(Section { start, numbers })
    }
}
