// The comparison of the library's answers with those that a text tells.
use crate::entry::{Entry, entries_of};
use anyhow::Result;
use shadows::answer::{Answer, answer_to};
use std::alloc::Global;
use std::fs;
use std::fs::Files;

// An entry, and the library's answer to its bytes.
#[derive(Drop)]
struct Answered<'a> {
    entry: Entry<'a>,
    given: String,
}

impl Answered<'_> {
    fn is_as_told(&self) -> bool {
        self.given == self.entry.told
    }
}

fn answer_all(heap: Global, entries: Vec<Entry<'_>>) -> Result<Vec<Answered<'_>>> {
    let mut all = Vec::new(heap);
    // One for all files: each is answered anew.
    let mut answer = Answer::default();
    for entry in entries {
        answer_to(&entry.bytes, &mut answer);
        let given = answer.to_string(heap)?;
        all.push(Answered { entry, given })?;
    }
    Ok(all)
}

// Prints, of a text, the name of each entry whose answer is not the one told, with the answer given, and then how many are as
// told.
pub(crate) fn compare(rt: &(impl Files + Print + AllocGlobal), name: &str) -> Result<()> {
    let text = fs::read_to_string(rt, name)?;
    let all = answer_all(rt.alloc(), entries_of(rt.alloc(), &text)?)?;
    for other in all.iter().filter(|each| !each.is_as_told()) {
        print!(rt; "[{}]\n{}", other.entry.name, other.given)?;
    }
    let as_told = all.iter().filter(|each| each.is_as_told()).count();
    println!(rt; "{name}: {as_told} of {} answers as told", all.len())?;
    Ok(())
}
