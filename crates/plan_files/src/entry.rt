// The entries of a text.
use anyhow::{Context, Result, ensure};
use std::alloc::Global;
use std::fmt::Write;

// A plan file and the answer that is told of it.
#[derive(Drop)]
pub(crate) struct Entry<'a> {
    pub(crate) name: &'a str,
    pub(crate) bytes: Vec<u8>,
    pub(crate) told: String,
}

impl<'a> Entry<'a> {
    // The entry of these lines: its name, its bytes and the lines of its answer.
    fn read(heap: Global, lines: &'a str) -> Result<Entry<'a>> {
        let (name, rest) = named(lines).context("an entry with no name")?;
        let mut entry = Entry {
            name,
            bytes: Vec::new(heap),
            told: String::new(heap),
        };
        for line in rest.lines() {
            entry.add(heap, line).context(name)?;
        }
        Ok(entry)
    }

    // Adds a line after the name: one of the answer, or, before these, one of the bytes.
    fn add(&mut self, heap: Global, line: &str) -> Result<()> {
        if let Some(answer) = line.strip_prefix("= ") {
            writeln!(self.told, "{answer}")?;
            return Ok(());
        }
        ensure!(self.told.is_empty(), "a line after the answer");
        self.add_bytes(heap, line)
    }

    fn add_bytes(&mut self, heap: Global, digits: &str) -> Result<()> {
        for group in digits.split_whitespace() {
            self.bytes.extend_from_slice(&hex::decode(heap, group)?)?;
        }
        Ok(())
    }
}

// The name on the first line, which stands in brackets, and the lines after it.
fn named(lines: &str) -> Option<(&str, &str)> {
    lines.strip_prefix('[')?.split_once("]\n")
}

// All entries of a text, which have an empty line between them. Its first lines are for readers.
pub(crate) fn entries_of(heap: Global, text: &str) -> Result<Vec<Entry<'_>>> {
    let mut entries = Vec::new(heap);
    for lines in text.split("\n\n").skip(1) {
        entries.push(Entry::read(heap, lines)?)?;
    }
    Ok(entries)
}
