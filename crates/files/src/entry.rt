// The entries of a pattern's tables, as they stand in a payload one after the other.
ghost use Rattle.std.specs.Prelude.{◌≡◌, ℕ, ◌≤◌, Bool, true, cond, List, length, drop, Some, None, nat_lt, refl};
ghost use Rattle.blocks.specs.Bytes.{bytes_of};
ghost use Rattle.blocks.specs.Reading.{rest};
ghost use Rattle.files.specs.Layout.{root_of, row_of, row_bytes_of};

use blocks::reader::Reader;
use patterns::row::Row;

// An entry of N bytes.
pub(crate) trait Entry<const N: usize>: Copy {
    // The bytes of an entry.
    ghost bytes: { Self → List ℕ };

    // The entry at the front of some bytes, and whether there is one.
    ghost front: { List ℕ → Self };

    ghost stands: { List ℕ → Bool };

    fn to_bytes(self) -> [u8; N]
        ensures { result ≡ bytes self };

    // The entry in the next N bytes, unless these are none. They are passed over.
    fn next(reader: &mut Reader) -> Option<Self>
        requires { N ≤ length (rest reader.old) }
        ensures value { result ≡ cond (stands (rest reader.old)) (Some (front (rest reader.old))) None }
        ensures after { rest reader.new ≡ drop N (rest reader.old) };

    ghost long: { (x : Self) → length (bytes x) ≡ N };
}

// A root is a number.
impl Entry<2> for u16 {
    ghost bytes = { bytes_of 2 };

    ghost front = { root_of };

    ghost stands = { λ _. true };

    fn to_bytes(self) -> [u8; 2] {
        self.to_le_bytes()
    }

    fn next(reader: &mut Reader) -> Option<u16> {
        reader.next_u16()
    }

    ghost long = { λ _. refl };
}

// Behind a row's operation stands a zero byte.
impl Entry<6> for Row {
    ghost bytes = { row_bytes_of };

    ghost front = { row_of };

    ghost stands = { λ p. nat_lt (row_of p).operation 256 };

    fn to_bytes(self) -> [u8; 6] {
        let left = self.left.to_le_bytes();
        let right = self.right.to_le_bytes();
        [self.operation, 0, left[0], left[1], right[0], right[1]]
    }

    fn next(reader: &mut Reader) -> Option<Row> {
        let (operation, left, right) = reader.next_three_u16()?;
        let operation = u8::try_from(operation).ok()?;
        Some(Row {
            operation,
            left,
            right,
        })
    }

    ghost long = { λ _. refl };
}
