// A plan read from bytes.
ghost use Rattle.std.specs.Prelude.{◌≡◌, ◌+◌, ◌≤◌, ℕ, List, length, None, ◌++◌, drop, map, unsigned_abs, IfOk, IsOkAnd, OnOk};
ghost use Rattle.scan.specs.Limits.{Fitted};
ghost use Rattle.scan.specs.Meanings.{draft_of, plan_of};
ghost use Rattle.scan.specs.Scans.{Scan, with_views};
ghost use Rattle.scan.specs.ViewDirections.{direction_count};
ghost use Rattle.scan.specs.Verdicts.{Verdict};
ghost use Rattle.planfile.specs.Numbers.{numbers_in};
ghost use Rattle.planfile.specs.Sections.{start};
ghost use Rattle.planfile.specs.FileChecks.{first_no_step, plan_check};
ghost use Rattle.planfile.specs.Written.{written};
ghost use Rattle.planfile.specs.Plans.{scan_in};

use crate::cursor::Cursor;
use crate::fault::Fault;
use crate::numbers::Numbers;
use scan::directions::{Directions, Headings, direction_count};
use scan::draft::Draft;
use scan::plan::Plan;

// Adds views at steps that were checked.
#[tactic(auto, using(crate::proofs::Views::no_views, crate::proofs::Views::more_views, crate::proofs::Views::view_passes))]
fn add_views(draft: &mut Draft, steps: &Numbers<'_>)
    requires steps { first_no_step (direction_count (length (draft_of draft.old).directions)) (numbers_in steps.now.bytes.now) ≡ None }
    requires room { length (draft_of draft.old).steps + length (numbers_in steps.now.bytes.now) ≤ 1024 }
    ensures { draft_of draft.new ≡ with_views (draft_of draft.old) (map unsigned_abs (numbers_in steps.now.bytes.now)) }
{
    for i in 0..steps.len() {
        // The step was checked, and there is room.
        draft.add_view(steps.number(i)).unwrap();
    }
}

// Reads the plan at the front of the bytes.
#[tactic(auto, using(std::proofs::lemmas::Result::err_from_is_err_and), unfolding(crate::specs::FileChecks::plan_check, crate::specs::Sections::start, crate::specs::Plans::scan_in))]
fn read(cursor: &mut Cursor<'_>) -> Result<Plan, Fault>
    requires { cursor.old.offset ≡ 0 }
    ensures answer { Verdict (plan_check cursor.old.bytes.now) (λ plan. plan_of plan ≡ scan_in cursor.old.bytes.now) result }
    ensures bytes { cursor.new.bytes.now ≡ cursor.old.bytes.now }
    ensures moved { OnOk result ((cursor.new.offset ≡ start cursor.old.bytes.now 8) × (start cursor.old.bytes.now 8 ≤ length cursor.old.bytes.now)) }
{
    let axes = cursor.axes()?;
    let accepted = axes.accepted()?;
    let headings = cursor.directions()?;
    let steps = cursor.steps(direction_count(headings.count()))?;
    let directions = Directions {
        headings: &headings,
    };
    let mut draft = accepted.draft_with(&axes.z, &axes.row, directions);
    add_views(&mut draft, &steps);
    Ok(draft.seal())
}

// The plan at the front of the bytes, and the rest: apart from `read_plan`, so that both ways of the round trip rest on one
// answer.
fn plan_and_rest(bytes: &[u8]) -> Result<(Plan, &[u8]), Fault>
    ensures { let b = bytes.now in
        Verdict (plan_check b) (λ read. (plan_of read.0 ≡ scan_in b) × (read.1.now ≡ drop (start b 8) b) × (start b 8 ≤ length b)) result }
{
    let mut cursor = Cursor { bytes, offset: 0 };
    let plan = read(&mut cursor)?;
    Ok((plan, &bytes[cursor.offset..]))
}

/// Reads the plan at the front of the bytes, and hands back the rest of them. Checks each section in turn, 1, 2 and 1 and
/// then its own: 6 for the distances, 5 and 4 for each axis, with 7 and 8 after the last, 11 for the directions, and 9 for the
/// steps. Places are bytes, counted from 0. Defined by `plan_check` of specs/FileChecks, `scan_in` of specs/Plans and `written` of
/// specs/Written.
pub fn read_plan(bytes: &[u8]) -> Result<(Plan, &[u8]), Fault>
    ensures answer { let b = bytes.now in
        Verdict (plan_check b) (λ read. (plan_of read.0 ≡ scan_in b) × (read.1.now ≡ drop (start b 8) b) × (start b 8 ≤ length b)) result }
    // What is read is written so: the bytes are those of the plan, and then the rest.
    ensures spelled { IfOk result (λ read. bytes.now ≡ written (plan_of read.0) ++ read.1.now) }
    // What is written so is read: a plan's bytes, with any bytes after them, give that plan and the rest.
    ensures again { (scan : Scan) (rest : List ℕ) → Fitted scan → bytes.now ≡ written scan ++ rest
        → IsOkAnd result (λ read. (plan_of read.0 ≡ scan) × (read.1.now ≡ rest)) }
{
    plan_and_rest(bytes)
}
