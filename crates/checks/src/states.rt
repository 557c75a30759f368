// The states of a check, a type for each.
ghost use Rattle.std.specs.Prelude.{◌≡◌, ◌+◌, ◌<◌, ◌≤◌};

use crate::counts::Counts;

// A check without a verdict: it may be advanced.
#[derive(Drop)]
pub struct Running {
    pub(crate) counts: Counts,
    ghost small: { counts.rows ≤ 4096 },
    ghost room: { counts.finds ≤ counts.rows },
    ghost here: { counts.row < counts.finds },
    ghost begun: { counts.starts ≤ counts.finds },
    ghost counted: { counts.queries + counts.starts ≡ counts.finds + counts.row },
}

// A check that ended in MATCHES: it has a sequence.
#[derive(Drop)]
pub struct Matched {
    pub(crate) counts: Counts,
    ghost room: { counts.finds ≤ counts.rows },
}

// A check that ended in NEVER: it has a certificate.
#[derive(Drop)]
pub struct Never {
    pub(crate) counts: Counts,
    ghost room: { counts.finds ≤ counts.rows },
}

// A check that ended in FULL: its cleared length stands.
#[derive(Drop)]
pub struct Full {
    pub(crate) counts: Counts,
    ghost room: { counts.finds ≤ counts.rows },
    ghost here: { counts.row < counts.finds },
}

// A check, in whichever state it is.
#[derive(Drop)]
pub enum Progress {
    Running(Running),
    Matched(Matched),
    Never(Never),
    Full(Full),
}
