// The line that a program prints for a refusal of two files.
ghost use Rattle.std.specs.Prelude.{◌≡◌, IfOk, Some, string_bytes};
ghost use Rattle.pairs.specs.Refusals.{pair_line_of};

use crate::fault::FilesFault;
use files::line::Refused;
use std::alloc::{AllocError, Global};
use std::fmt;

// A fault of two files prints as the line of its refusal.
impl fmt::Display for FilesFault {
    ghost output = { λ fault. Some (pair_line_of fault) };

    fn fmt<W: fmt::Write>(&self, f: &mut fmt::Formatter<W>) -> fmt::Result {
        let refused = Refused {
            number: self.number(),
            layer: self.layer(),
            place: self.place(),
        };
        refused.fmt(f)
    }
}

// The fault as it is printed.
pub fn pair_line(heap: Global, fault: FilesFault) -> Result<String, AllocError>
    ensures { IfOk result (λ s. string_bytes s ≡ pair_line_of fault) }
{
    format!(in heap; "{fault}")
}
