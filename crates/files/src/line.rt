// The line that a program prints for a refusal.
ghost use Rattle.std.specs.Prelude.{◌≡◌, IfOk, Some, string_bytes};
ghost use Rattle.std.specs.Option.{option_map};
ghost use Rattle.files.specs.Lines.{layer_name_of, line_of, refused_line_of};

use crate::fault::{Layer, TableFault};
use std::alloc::{AllocError, Global};
use std::fmt;

// The number under which something is refused, the layer that refuses it, and the place: all of it prints as one line,
// "refused 4 table 3".
#[derive(Clone, Copy)]
pub struct Refused<L> {
    pub number: u8,
    pub layer: L,
    pub place: usize,
}

impl<L: fmt::Display> fmt::Display for Refused<L> {
    ghost output = { λ r. option_map (λ layer. line_of r.number layer r.place) (L.output r.layer) };

    fn fmt<W: fmt::Write>(&self, f: &mut fmt::Formatter<W>) -> fmt::Result {
        write!(f, "refused {} {} {}", self.number, self.layer, self.place)
    }
}

impl fmt::Display for Layer {
    ghost output = { λ l. Some (layer_name_of l) };

    fn fmt<W: fmt::Write>(&self, f: &mut fmt::Formatter<W>) -> fmt::Result {
        f.write_str(match self {
            Layer::Block => "block",
            Layer::Record => "record",
            Layer::Table => "table",
        })
    }
}

// A fault of a file prints as the line of its refusal.
impl fmt::Display for TableFault {
    ghost output = { λ f. Some (refused_line_of f) };

    fn fmt<W: fmt::Write>(&self, f: &mut fmt::Formatter<W>) -> fmt::Result {
        let refused = Refused {
            number: self.number(),
            layer: self.layer(),
            place: self.place(),
        };
        refused.fmt(f)
    }
}

// "refused", the number, the layer and the place of the fault.
pub fn refused_line(heap: Global, fault: TableFault) -> Result<String, AllocError>
    ensures { IfOk result (λ s. string_bytes s ≡ refused_line_of fault) }
{
    format!(in heap; "{fault}")
}
