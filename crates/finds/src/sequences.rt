// The sequence of a table of finds: the events that lead from the row that was recorded last to a first configuration.
ghost use Rattle.std.specs.Prelude.{◌≡◌, ◌≤◌, true, ◌++◌, length, drop, OnOk};
ghost use Rattle.search.specs.Search.{length_at};
ghost use Rattle.finds.specs.Intact.{intact};
ghost use Rattle.finds.specs.Results.{last_of, Chained, sequence_of, sequence_refusal, Answered};

use crate::is_intact;
use crate::refusals::Refused;
use kinds::Kind;
use search::Find;
use sets::Event;

// Writes the events of the rows from the last one along the origins, before the row of length 0, into the front of the
// list, and answers how many they are. Refused, with the list as it was, if the rows are not intact or, where they
// are, the list is too short.
// Stays: kind, finds and list apart: each public call takes what it needs of these, and this one takes no store.
pub fn write_sequence<K: Kind>(
    kind: &K,
    starts: usize,
    finds: &[Find<K::Config>],
    list: &mut [Event],
) -> Result<usize, Refused>
    ensures cases { Answered (sequence_of (K.shape kind.now) finds.now) (sequence_refusal (K.shape kind.now) starts finds.now (length list.old)) list.old list.new result }
    ensures ok { OnOk result (intact (K.shape kind.now) starts finds.now ≡ true) }
{
    if !is_intact(kind, starts, finds) {
        return Err(Refused::Altered);
    }
    let count = last_length(finds);
    if list.len() < count {
        return Err(Refused::SequenceRoom);
    }
    write_events(kind, finds, list, count);
    Ok(count)
}

// The length of the row that was recorded last, and 0 where none is.
fn last_length<C>(finds: &[Find<C>]) -> usize
    ensures { result ≡ length_at finds.now (last_of finds.now) }
{
    finds.last().map_or(0, |find| find.length)
}

// Writes the events of `count` rows, from the last one along the origins, into the front of the list.
fn write_events<K: Kind>(kind: &K, finds: &[Find<K::Config>], list: &mut [Event], count: usize)
    requires chained { Chained finds.now }
    requires count { count ≡ length_at finds.now (last_of finds.now) }
    requires room { count ≤ length list.old }
    ensures { list.new ≡ sequence_of (K.shape kind.now) finds.now ++ drop count list.old }
{
    let mut row = finds.len().saturating_sub(1);
    for event in list[..count].iter_mut() {
        let find = &finds[row];
        *event = kind.event(find.via);
        row = find.origin;
    }
}
