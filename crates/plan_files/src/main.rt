//! Runs the library over the plan files that the texts in data/ hold, and compares its answers with those told there. A program
//! made apart from the library, tools/plan_files.py, makes the texts, and in stdout what has to be printed.
#![tactic(auto)]

mod comparison;
mod entry;

use anyhow::{Context, Result};
use comparison::compare;

fn main(rt: HostRuntime) -> Result<()> {
    // In the last text every answer is wrong: a comparison that always agrees would show there.
    for text in ["by-hand.txt", "by-chance.txt", "wrong.txt"] {
        compare(&rt, text).context(text)?;
    }
    Ok(())
}
