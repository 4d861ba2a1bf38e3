//! Prints what the panel sees of the plan file that is given on standard input, or why it is refused.
#![tactic(auto)]

mod input;

use input::read_front;
use shadows::answer::{Answer, answer_to};
use std::io;

fn main(rt: HostRuntime) -> io::Result<()> {
    let front = read_front(rt.reader())?;
    let mut answer = Answer::default();
    answer_to(&front, &mut answer);
    print!(rt; "{answer}")
}
