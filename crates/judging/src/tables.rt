// From a file to its pattern, and from a pattern to the end of a check.
ghost use Rattle.std.specs.Prelude.{◌≡◌, ◌++◌, IfOk, string_bytes, codes};
ghost use Rattle.files.specs.Lines.{refused_line_of};
ghost use Rattle.pattern_kinds.specs.PatternKind.{single_pattern};
ghost use Rattle.judging.specs.Judgement.{ended, state_text, judgement_text};

use crate::ends::end_text;
use checks::advancing::MAX_GRANT;
use files::fault::TableFault;
use files::line::refused_line;
use files::reading::read_pattern;
use pattern_checks::run_pattern;
use pattern_kinds::pattern::Single;
use patterns::questions::MAX_ROWS;
use patterns::row::Row;
use scripts::{Call, Step};
use search::Find;
use sets::MAX_STATES;
use std::alloc::{AllocError, Global};
use stores::list::ListStore;

// How many rows the table of finds has, and how many configurations the store can hold.
pub(crate) const TABLE_ROWS: usize = 1_024;

// The judgement on a file.
pub(crate) fn judge_file(heap: Global, file: &[u8]) -> Result<String, AllocError>
    ensures { IfOk result (λ s. string_bytes s ≡ judgement_text file.now) }
{
    let mut roots = [0; MAX_STATES];
    let mut rows = [Row::default(); MAX_ROWS];
    match read_pattern(file, &mut roots, &mut rows) {
        Err(fault) => refusal_text(heap, fault),
        Ok(heading) => match heading.parts(&roots, &rows).checked() {
            Ok(checked) => judge_pattern(heap, &Single::new(checked.seal())),
            Err(_) => unreachable(),
        },
    }
}

// The line of a refusal, with its end.
fn refusal_text(heap: Global, fault: TableFault) -> Result<String, AllocError>
    ensures { IfOk result (λ s. string_bytes s ≡ refused_line_of fault ++ codes "\n") }
{
    let mut text = refused_line(heap, fault)?;
    text.push_str("\n")?;
    Ok(text)
}

// The report on a pattern.
fn judge_pattern(heap: Global, pattern: &Single) -> Result<String, AllocError>
    ensures { IfOk result (λ s. string_bytes s ≡ state_text (single_pattern pattern.now) (ended (single_pattern pattern.now))) }
{
    let mut held = [0u64; TABLE_ROWS];
    let mut table = [Find {
        configuration: 0u64,
        origin: 0,
        via: 0,
        length: 0,
    }; TABLE_ROWS];
    let mut store = ListStore::new(&mut held);
    let mut script = [Step {
        call: Call::Advance(MAX_GRANT),
        answer: None,
    }];
    match run_pattern(pattern, &mut table, &mut store, &mut script) {
        Ok(progress) => end_text(heap, pattern, &table, &store, progress),
        Err(_) => unreachable(),
    }
}
