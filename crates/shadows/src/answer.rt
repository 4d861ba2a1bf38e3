// What the program answers to a file.
ghost use Rattle.std.specs.Prelude.{Some};
ghost use Rattle.shadows.specs.Answers.{Blank, Answers};
ghost use Rattle.shadows.specs.Texts.{answer_text};

use crate::file::shadow_of;
use crate::refusal::Refusal;
use crate::shadow::Shadow;
use std::fmt;

/// What the program answers to a file: its shadow, or why there is none. A caller makes one, blank, keeps it where there is
/// room, and lends it for file after file: it is no enum, since a case that holds a shadow would have to be moved into place.
#[derive(Drop)]
pub struct Answer {
    /// Why the file has no shadow, where it has none.
    pub refusal: Option<Refusal>,
    /// The shadow of the last file that has one.
    pub shadow: Shadow,
}

/// A blank answer: a blank shadow, and no refusal.
impl Default for Answer {
    ghost is_default = { Blank };

    fn default() -> Answer {
        Answer {
            refusal: None,
            shadow: Shadow::default(),
        }
    }
}

impl fmt::Display for Answer {
    ghost output = { λ answer. Some (answer_text answer) };

    fn fmt<W: fmt::Write>(&self, f: &mut fmt::Formatter<W>) -> fmt::Result {
        match &self.refusal {
            None => write!(f, "{}", self.shadow),
            Some(refusal) => writeln!(f, "{refusal}"),
        }
    }
}

/// Makes an answer that to a file. To be refused is an answer, which leaves the shadow. Defined by `Answers` of
/// specs/Answers.
pub fn answer_to(bytes: &[u8], answer: &mut Answer)
    ensures { Answers bytes.now answer.old answer.new }
{
    answer.refusal = shadow_of(bytes, &mut answer.shadow).err();
}
