// The report of a check on a pattern that has ended.
ghost use Rattle.std.specs.Prelude.{◌≡◌, ◌≤◌, true, is_some, IfOk, string_bytes};
ghost use Rattle.kind_shapes.specs.Shapes.{pattern_shape};
ghost use Rattle.pattern_kinds.specs.PatternKind.{single_pattern};
ghost use Rattle.stores.specs.Rows.{contents, room};
ghost use Rattle.checks.specs.View.{counts_of, verdict_of, view};
ghost use Rattle.checks.specs.Calls.{Ready};
ghost use Rattle.reports.specs.Reports.{report_text};
ghost use Rattle.reports.specs.Shown.{outcome_of};
ghost use Rattle.judging.specs.Judgement.{state_text};

use crate::tables::TABLE_ROWS;
use checks::states::Progress;
use pattern_kinds::pattern::Single;
use reports::{Outcome, Report};
use search::{Find, Tally};
use sets::States;
use std::alloc::{AllocError, Global};
use stores::list::ListStore;

// The report of a check that has a verdict, whose table and store are as it left them.
pub(crate) fn end_text(
    heap: Global,
    pattern: &Single,
    table: &[Find<States>],
    store: &ListStore<States>,
    check: Progress,
) -> Result<String, AllocError>
    requires ready { Ready (pattern_shape (single_pattern pattern.now)) (counts_of check) table.now (contents store.now) (room store.now) }
    requires short { (counts_of check).finds ≤ 1024 }
    requires ended { is_some (verdict_of check) ≡ true }
    ensures { IfOk result (λ s. string_bytes s ≡ state_text (single_pattern pattern.now) (view check table.now (contents store.now))) }
{
    let Ok(tally) = check.tally(pattern, table) else {
        unreachable()
    };
    // Stays: the calls write into a list of the caller's, and how long theirs is shows only when it is written.
    let mut events = [0; TABLE_ROWS];
    let mut sets = [0; TABLE_ROWS];
    let outcome = match check {
        Progress::Matched(end) => match end.sequence(pattern, table, &mut events) {
            Ok(count) => Outcome::Matches(&events[..count]),
            Err(_) => unreachable(),
        },
        Progress::Never(end) => match end.certificate(pattern, table, store, &mut sets) {
            Ok(count) => Outcome::Never(&sets[..count]),
            Err(_) => unreachable(),
        },
        Progress::Full(_) => Outcome::Full(tally.cleared),
        Progress::Running(_) => unreachable(),
    };
    outcome_text(heap, tally, outcome)
}

// The report of a check with these counts and this outcome.
fn outcome_text(heap: Global, tally: Tally, outcome: Outcome) -> Result<String, AllocError>
    ensures { IfOk result (λ s. string_bytes s ≡ report_text tally.queries tally.finds (outcome_of outcome.entry)) }
{
    Report {
        queries: tally.queries,
        finds: tally.finds,
        outcome,
    }
    .to_string(heap)
}
