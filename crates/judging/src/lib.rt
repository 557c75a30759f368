// The judgement on a pattern file: the text that says whether the pattern can match, and how.
#![tactic(auto)]

ghost use Rattle.std.specs.Prelude.{◌≡◌, IfOk, None, string_bytes};
ghost use Rattle.blocks.specs.Layout.{payload};
ghost use Rattle.files.specs.Layout.{decoded};
ghost use Rattle.files.specs.Questions.{read_fault};
ghost use Rattle.judging.specs.Judgement.{judgement_text};
ghost use Rattle.judging.specs.Meaning.{Decided};

use crate::tables::judge_file;
use std::alloc::{AllocError, Global};

mod ends;
mod tables;

// The judgement on the bytes of a pattern file: the refusal of a file that is damaged or holds no pattern, or else the
// report of a check over 1,024 rows that was granted more queries than it can make. So there is always a verdict, and at
// MATCHES the events in the text are a shortest sequence that the pattern accepts, at NEVER the pattern accepts
// nothing, and at FULL whatever it accepts is longer than the length in the text. Fails only for want of memory.
pub fn judgement(heap: Global, file: &[u8]) -> Result<String, AllocError>
    ensures value { IfOk result (λ s. string_bytes s ≡ judgement_text file.now) }
    ensures decided { read_fault file.now 64 1024 ≡ None → Decided (decoded (payload file.now)) }
{
    judge_file(heap, file)
}
