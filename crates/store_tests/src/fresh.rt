// What a new list answers, by its contracts alone.
ghost use Rattle.std.specs.Prelude.{◌≡◌, length, if◌then◌else◌, Ok, Err, nat_lt};
ghost use Rattle.stores.specs.declared.refusals.Refused.TheVariants.{Full};

use crate::spots::{Spot, Spots};
use stores::Store;
use stores::list::ListStore;
use stores::refusals::Refused;

// The answer of a new list to its first insertion: done if there is a row, whatever stands in the rows.
pub fn first_answer(rows: &mut [Spot], x: Spot) -> Result<(), Refused>
    ensures { result ≡ (if nat_lt 0 (length rows.old) then Ok tt else Err Full) }
{
    let mut store = ListStore::new(rows);
    store.insert(&Spots, x)
}
