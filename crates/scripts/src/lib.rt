// A script: a list of calls on one check, and what each answered.
#![tactic(auto)]

ghost use Rattle.std.specs.Prelude.{◌≡◌, true, [], length, if◌then◌else◌, Ok, Err, None, MatchResult};
ghost use Rattle.finds.specs.declared.refusals.Refused.TheVariants as refused;
ghost use Rattle.checks.specs.declared.states.Progress.TheVariants as progress;
ghost use Rattle.checks.specs.View.{counts_of, view};
ghost use Rattle.checks.specs.Questions.{is_grant, open_refusal, unaltered};
ghost use Rattle.checks.specs.Calls.{Ready};
ghost use Rattle.scripts.specs.declared.Reply.TheVariants as reply;
ghost use Rattle.scripts.specs.Scripts.{answer_to, Acted, Ran};

use checks::advancing::ask_grant;
use checks::opening::open;
use checks::states::{Progress, Running};
use finds::refusals::Refused;
use kinds::Kind;
use search::{Find, Tally, Verdict};
use stores::Store;

// A call on a check.
// Stays: a script promises something of any list of calls, so a call is a value that the caller writes, and no closure.
#[derive(Clone, Copy, PartialEq, Eq, Debug)]
pub enum Call {
    // Advance by so many queries.
    Advance(u32),
    Tally,
    // Look at this row.
    Look(usize),
}

// What a call answers that is not refused.
#[derive(Clone, Copy, PartialEq, Eq, Debug)]
pub enum Reply<C> {
    // The verdict, if there is one, once the queries were made. A check that has a verdict already makes none.
    Advanced(Option<Verdict>),
    Tallied(Tally),
    Looked(Find<C>),
}

// A call, and what it answered, if it was made.
#[derive(Clone, Copy, PartialEq, Eq, Debug)]
pub struct Step<C> {
    pub call: Call,
    pub answer: Option<Result<Reply<C>, Refused>>,
}

// Opens a check and makes the calls of the script on it, one after another; each answer is written beside its call. A
// grant that is refused grants nothing, and the script goes on.
//
// After it, check, table and store are where the search stands after as many queries as the grants that were not refused
// add up to, and so was each answer, up to its call. Whatever the script, and for every kind and every store: at
// MATCHES the sequence is accepted and no accepted one is shorter; at NEVER the inspector passes the certificate, and
// nothing is accepted if it passes any list; otherwise whatever is accepted is longer than the cleared length; and once
// the grants reach twice the rows less the rows that opening recorded there is a verdict.
pub fn run<K: Kind, S: Store<K>>(
    kind: &K,
    table: &mut [Find<K::Config>],
    store: &mut S,
    script: &mut [Step<K::Config>],
) -> Result<Progress, Refused>
    ensures cases { MatchResult result
        (λ p. (open_refusal (K.shape kind.now) (length table.old) (S.held store.old) (S.limit store.old) ≡ None)
        × Ran (K.shape kind.now) table.old script.old p table.new (S.held store.new) (S.limit store.new) script.new)
        (λ e. (open_refusal (K.shape kind.now) (length table.old) (S.held store.old) (S.limit store.old) ≡ Some e)
        × (table.new ≡ table.old) × (store.new ≡ store.old) × (script.new ≡ script.old)) }
    ensures limit { S.limit store.new ≡ S.limit store.old }
{
    let mut progress = open(kind, table, store)?;
    for step in script.iter_mut() {
        let (next, answer) = act(progress, kind, table, store, step.call);
        progress = next;
        step.answer = Some(answer);
    }
    Ok(progress)
}

// One call on a check.
// Stays: progress, kind, table and store apart: a check's calls take them so, and tally and look take no store.
fn act<K: Kind, S: Store<K>>(
    progress: Progress,
    kind: &K,
    table: &mut [Find<K::Config>],
    store: &mut S,
    call: Call,
) -> (Progress, Result<Reply<K::Config>, Refused>)
    requires { Ready (K.shape kind.now) (counts_of progress) table.old (S.held store.old) (S.limit store.old) }
    ensures acted { Acted (K.shape kind.now) progress table.old (S.held store.old) call result.0 table.new (S.held store.new) result.1 }
    ensures limit { S.limit store.new ≡ S.limit store.old }
{
    match call {
        Call::Advance(grant) => advance(progress, kind, table, store, grant),
        Call::Tally => {
            let answer = tally(&progress, kind, table);
            (progress, answer)
        }
        Call::Look(row) => {
            let answer = look(&progress, kind, table, row);
            (progress, answer)
        }
    }
}

// Advances a check by a grant, if it has no verdict.
fn advance<K: Kind, S: Store<K>>(
    progress: Progress,
    kind: &K,
    table: &mut [Find<K::Config>],
    store: &mut S,
    grant: u32,
) -> (Progress, Result<Reply<K::Config>, Refused>)
    requires { Ready (K.shape kind.now) (counts_of progress) table.old (S.held store.old) (S.limit store.old) }
    ensures acted { Acted (K.shape kind.now) progress table.old (S.held store.old) (Call.Advance grant) result.0 table.new (S.held store.new) result.1 }
    ensures limit { S.limit store.new ≡ S.limit store.old }
{
    match progress {
        Progress::Running(running) => advance_running(running, kind, table, store, grant),
        ended => {
            let answer = granted_after(grant, ended.verdict());
            (ended, answer)
        }
    }
}

fn advance_running<K: Kind, S: Store<K>>(
    running: Running,
    kind: &K,
    table: &mut [Find<K::Config>],
    store: &mut S,
    grant: u32,
) -> (Progress, Result<Reply<K::Config>, Refused>)
    requires { Ready (K.shape kind.now) running.counts table.old (S.held store.old) (S.limit store.old) }
    ensures acted { Acted (K.shape kind.now) (progress.Running running) table.old (S.held store.old) (Call.Advance grant) result.0 table.new (S.held store.new) result.1 }
    ensures limit { S.limit store.new ≡ S.limit store.old }
{
    match running.advance(kind, table, store, grant) {
        Ok(next) => {
            let answer = Ok(Reply::Advanced(next.verdict()));
            (next, answer)
        }
        Err((running, refused)) => (Progress::Running(running), Err(refused)),
    }
}

// What a check with this verdict answers to a grant.
fn granted_after<C>(grant: u32, verdict: Option<Verdict>) -> Result<Reply<C>, Refused>
    ensures { result ≡ (if is_grant grant then Ok (reply.Advanced verdict) else Err refused.Grant) }
{
    ask_grant(grant)?;
    Ok(Reply::Advanced(verdict))
}

fn tally<K: Kind>(
    progress: &Progress,
    kind: &K,
    table: &[Find<K::Config>],
) -> Result<Reply<K::Config>, Refused>
    requires { unaltered (K.shape kind.now) (counts_of progress.now) table.now ≡ true }
    ensures { result ≡ answer_to (view progress.now table.now []) Call.Tally }
{
    Ok(Reply::Tallied(progress.tally(kind, table)?))
}

fn look<K: Kind>(
    progress: &Progress,
    kind: &K,
    table: &[Find<K::Config>],
    row: usize,
) -> Result<Reply<K::Config>, Refused>
    requires { unaltered (K.shape kind.now) (counts_of progress.now) table.now ≡ true }
    ensures { result ≡ answer_to (view progress.now table.now []) (Call.Look row) }
{
    Ok(Reply::Looked(progress.look(kind, table, row)?))
}
