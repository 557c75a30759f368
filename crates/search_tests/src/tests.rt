// Which tables a search may be made over.
use crate::beginnings::Beginnings;
use search::{MAX_ROWS, admits_rows};

// 1 to 4,096 rows, and no fewer than first configurations, alike ones counted too.
#[test]
fn tables_have_rows_for_the_first_configurations(rt: HostRuntime) {
    let none = Beginnings { firsts: &[] };
    assert!(rt; !admits_rows(&none, 0));
    assert!(rt; admits_rows(&none, 1));
    assert!(rt; admits_rows(&none, 4_096));
    assert!(rt; !admits_rows(&none, 4_097));
    assert!(rt; !admits_rows(&none, usize::MAX));
    let three = Beginnings { firsts: &[7, 7, 5] };
    assert!(rt; !admits_rows(&three, 0));
    assert!(rt; !admits_rows(&three, 2));
    assert!(rt; admits_rows(&three, 3));
    assert!(rt; admits_rows(&three, MAX_ROWS));
    assert!(rt; !admits_rows(&three, MAX_ROWS + 1));
    let most = [0; 4_096];
    assert!(rt; !admits_rows(&Beginnings { firsts: &most }, 4_095));
    assert!(rt; admits_rows(&Beginnings { firsts: &most }, 4_096));
    let too_many = [0; 4_097];
    assert!(rt; !admits_rows(&Beginnings { firsts: &too_many }, 4_096));
    assert!(rt; !admits_rows(&Beginnings { firsts: &too_many }, 4_097));
}
