// The certificate of a table of finds: the configurations in it that a store still holds.
ghost use Rattle.std.specs.Prelude.{◌≡◌, ◌≤◌, ◌++◌, length, drop};
ghost use Rattle.finds.specs.Results.{certificate_of, certificate_refusal, Answered};

use crate::refusals::Refused;
use kinds::Kind;
use search::Find;
use stores::Store;

// Writes every row's configuration that the store holds, in the table's order, into the front of the list, and answers
// how many they are. Refused, with the list as it was, if the list is too short.
// Stays: kind, store, finds and list apart: each public call takes what it needs of these, and no other takes all.
pub fn write_certificate<K: Kind, S: Store<K>>(
    kind: &K,
    store: &S,
    finds: &[Find<K::Config>],
    list: &mut [K::Config],
) -> Result<usize, Refused>
    ensures { Answered (certificate_of (K.shape kind.now) (S.held store.now) finds.now) (certificate_refusal (K.shape kind.now) (S.held store.now) finds.now (length list.old)) list.old list.new result }
{
    let count = count_held(kind, store, finds);
    if list.len() < count {
        return Err(Refused::CertificateRoom);
    }
    write_held(kind, store, finds, list);
    Ok(count)
}

// How many rows have a configuration that the store holds.
fn count_held<K: Kind, S: Store<K>>(kind: &K, store: &S, finds: &[Find<K::Config>]) -> usize
    ensures { result ≡ length (certificate_of (K.shape kind.now) (S.held store.now) finds.now) }
{
    finds
        .iter()
        .map(|find| find.configuration)
        .filter(|x| store.holds(kind, *x))
        .count()
}

// Writes every row's configuration that the store holds into the front of a list that is long enough.
fn write_held<K: Kind, S: Store<K>>(
    kind: &K,
    store: &S,
    finds: &[Find<K::Config>],
    list: &mut [K::Config],
)
    requires { length (certificate_of (K.shape kind.now) (S.held store.now) finds.now) ≤ length list.old }
    ensures { list.new ≡ certificate_of (K.shape kind.now) (S.held store.now) finds.now ++ drop (length (certificate_of (K.shape kind.now) (S.held store.now) finds.now)) list.old }
{
    let mut count = 0;
    for find in finds {
        if store.holds(kind, find.configuration) {
            list[count] = find.configuration;
            count += 1;
        }
    }
}
