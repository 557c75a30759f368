// What the calls of a check ask of a table of finds, and what they read from it: whether it is as a search left it,
// the least move to something new, the sequence, and the certificate. Every call takes tables of any contents.
#![tactic(auto)]

ghost use Rattle.std.specs.Prelude.{◌≡◌, suc, Decides, ◌==◌};
ghost use Rattle.search.specs.Search.{length_at};
ghost use Rattle.finds.specs.Intact.{came_after, stands_in_place, intact, Intact};

use kinds::Kind;
use search::Find;

pub mod certificates;
pub mod finder;
pub mod refusals;
pub mod sequences;

// Yes if and only if the recorded rows are as a search leaves them that recorded `starts` of them at opening: each of
// those has length 0, and each other row an earlier row as its origin, that row's length and one, and a move that the
// kind has. The configurations are not looked at.
pub fn is_intact<K: Kind>(kind: &K, starts: usize, finds: &[Find<K::Config>]) -> bool
    ensures value { result ≡ intact (K.shape kind.now) starts finds.now }
    ensures test { Decides result (Intact (K.shape kind.now) starts finds.now) }
{
    finds
        .iter()
        .enumerate()
        .all(|(i, find)| is_in_place(kind, starts, finds, i, find))
}

// Yes if and only if row i, which this one is, is in place: among the first rows by its length, otherwise by where it
// came from.
fn is_in_place<K: Kind>(
    kind: &K,
    starts: usize,
    finds: &[Find<K::Config>],
    i: usize,
    find: &Find<K::Config>,
) -> bool
    ensures { result ≡ stands_in_place (K.shape kind.now) starts finds.now i find.now }
{
    if i < starts {
        find.length == 0
    } else {
        comes_after(kind, finds, i, find)
    }
}

// Yes if and only if row i, which this one is, came from an earlier row by a move that the kind has, and is one longer.
fn comes_after<K: Kind>(
    kind: &K,
    finds: &[Find<K::Config>],
    i: usize,
    find: &Find<K::Config>,
) -> bool
    ensures { result ≡ came_after (K.shape kind.now) finds.now i find.now }
{
    find.origin < i
        && is_one_more(find.length, length_at(finds, find.origin))
        && find.via < kind.moves()
}

// The length of row i, and 0 where there is none.
fn length_at<C>(finds: &[Find<C>], i: usize) -> usize
    ensures { result ≡ length_at finds.now i }
{
    finds.get(i).map_or(0, |find| find.length)
}

// Yes if and only if m is n and one; n may be the greatest number there is.
fn is_one_more(m: usize, n: usize) -> bool
    ensures { result ≡ (m == suc n) }
{
    n.checked_add(1) == Some(m)
}
