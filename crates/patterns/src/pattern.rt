// A pattern: tables that meet every question.
ghost use Rattle.std.specs.Prelude.{◌≡◌, false, is_some};
ghost use Rattle.patterns.specs.Automaton.{read};
ghost use Rattle.patterns.specs.Questions.{judged};

use crate::parts::Parts;

pub mod matcher;

// It is made only from tables that were asked every question, and lends them on unchanged.
#[derive(Drop)]
pub struct Pattern<'a> {
    parts: Parts<'a>,
    ghost formed: { is_some (judged (read parts)) ≡ false },
}

impl<'a> Pattern<'a> {
    // The tables that the pattern was made from.
    pub fn parts(&self) -> Parts<'a>
        ensures { read result ≡ read self.now.parts }
    {
        self.parts
    }
}
