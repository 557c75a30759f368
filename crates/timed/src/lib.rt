// Calls that a benchmark in another language makes.
#![tactic(auto)]

ghost use Rattle.std.specs.Prelude.{◌≡◌};
ghost use Rattle.files.specs.Questions.{read_fault};
ghost use Rattle.timed.specs.Numbers.{refusal_number};

use files::reading::read_pattern;
use patterns::questions::MAX_ROWS;
use patterns::row::Row;
use sets::MAX_STATES;

// Reads a pattern file into tables of 64 roots and 1,024 rows: 0 if it was read, otherwise the number of the refusal.
// Stays: the C interface has no Result, so 0 stands for a file that was read.
#[unsafe(no_mangle)]
pub extern "C" fn kazhulwi_read(file: &[u8]) -> u8
    ensures { result ≡ refusal_number (read_fault file.now 64 1024) }
{
    let mut roots = [0; MAX_STATES];
    let mut rows = [Row::default(); MAX_ROWS];
    match read_pattern(file, &mut roots, &mut rows) {
        Ok(_) => 0,
        Err(fault) => fault.number(),
    }
}
