// Matching straight from a file.
ghost use Rattle.std.specs.Prelude.{◌≡◌, cond, length, is_ok, Some, None, Decides, MatchResult};
ghost use Rattle.blocks.specs.Layout.{payload};
ghost use Rattle.patterns.specs.Accepted.{Accepted};
ghost use Rattle.files.specs.Layout.{decoded, fronted};
ghost use Rattle.files.specs.Questions.{read_fault};

use crate::fault::TableFault;
use crate::reading::read_pattern;
use patterns::row::Row;
use sets::Event;

// Reads a pattern file into the caller's tables and says whether its pattern accepts the events; or the first fault of
// the file, which leaves the tables as they were.
// Stays: with both lent slices in a struct, each contract would also have to say that they are still those slices.
pub fn file_accepts(
    file: &[u8],
    events: &[Event],
    roots: &mut [u16],
    rows: &mut [Row],
) -> Result<bool, TableFault>
    ensures cases { MatchResult result
        (λ accepted. (read_fault file.now (length roots.old) (length rows.old) ≡ None)
        × Decides accepted (Accepted (decoded (payload file.now)) events.now))
        (λ f. read_fault file.now (length roots.old) (length rows.old) ≡ Some f) }
    ensures roots { roots.new ≡ cond (is_ok result)
        (fronted (decoded (payload file.now)).roots roots.old) roots.old }
    ensures rows { rows.new ≡ cond (is_ok result)
        (fronted (decoded (payload file.now)).rows rows.old) rows.old }
{
    let accepted = read_and_match(file, events, roots, rows)?;
    Ok(accepted)
}

// The same, and what is proved of it. The call above only hands the answer on.
// Stays: a rule of the project has a wrong answer refused at the code itself: in one function its proof would fail.
fn read_and_match(
    file: &[u8],
    events: &[Event],
    roots: &mut [u16],
    rows: &mut [Row],
) -> Result<bool, TableFault>
    ensures cases { MatchResult result
        (λ accepted. (read_fault file.now (length roots.old) (length rows.old) ≡ None)
        × Decides accepted (Accepted (decoded (payload file.now)) events.now))
        (λ f. read_fault file.now (length roots.old) (length rows.old) ≡ Some f) }
    ensures roots { roots.new ≡ cond (is_ok result)
        (fronted (decoded (payload file.now)).roots roots.old) roots.old }
    ensures rows { rows.new ≡ cond (is_ok result)
        (fronted (decoded (payload file.now)).rows rows.old) rows.old }
{
    let heading = read_pattern(file, roots, rows)?;
    Ok(heading.parts(roots, rows).accepts(events)?)
}
