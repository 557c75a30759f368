// The members of a set one by one, in ascending order.
ghost use Rattle.std.specs.Prelude.{◌≡◌, length};
ghost use Rattle.std.specs.List.{slice_get};
ghost use Rattle.kind_shapes.specs.Shapes.{members};

use sets::{States, holds};

// How many members below the limit the set has.
pub(crate) fn member_count(set: States, limit: u8) -> usize
    ensures { result ≡ length (members set limit) }
{
    (0..limit).filter(|q| holds(set, usize::from(*q))).count()
}

// The member below the limit that has number i, counted from 0, and none where there are no more than i.
pub(crate) fn member(set: States, limit: u8, i: usize) -> Option<u8>
    ensures { result ≡ slice_get (members set limit) i }
{
    (0..limit).filter(|q| holds(set, usize::from(*q))).nth(i)
}
