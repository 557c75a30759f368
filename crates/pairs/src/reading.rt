// "B without A" of the patterns in two files.
ghost use Rattle.std.specs.Prelude.{length};
ghost use Rattle.blocks.specs.Layout.{payload};
ghost use Rattle.files.specs.Layout.{decoded};
ghost use Rattle.pairs.specs.Paired.{Paired};
ghost use Rattle.pairs.specs.Questions.{files_fault};

use crate::fault::FilesFault;
use crate::tables::pair_parts;
use files::heading::Heading;
use files::reading::read_pattern;
use patterns::questions::MAX_ROWS;
use patterns::row::Row;
use sets::MAX_STATES;

// Reads two pattern files and puts the pattern "later without earlier" into the fronts of the caller's tables, as
// `pair_tables` does. The earlier entry's file is asked first. A refusal changes nothing.
pub fn pair_files(
    later: &[u8],
    earlier: &[u8],
    roots: &mut [u16],
    rows: &mut [Row],
) -> Result<Heading, FilesFault>
    ensures { Paired (decoded (payload later.now)) (decoded (payload earlier.now))
        (files_fault earlier.now later.now (length roots.old) (length rows.old))
        result roots.old roots.new rows.old rows.new }
{
    let mut earlier_roots = [0; MAX_STATES];
    let mut earlier_rows = [Row::default(); MAX_ROWS];
    let earlier_heading = read_pattern(earlier, &mut earlier_roots, &mut earlier_rows).map_err(
        FilesFault::Earlier,
    )?;
    let mut later_roots = [0; MAX_STATES];
    let mut later_rows = [Row::default(); MAX_ROWS];
    let later_heading = read_pattern(later, &mut later_roots, &mut later_rows).map_err(
        FilesFault::Later,
    )?;
    let earlier_parts = earlier_heading.parts(&earlier_roots, &earlier_rows);
    let later_parts = later_heading.parts(&later_roots, &later_rows);
    Ok(pair_parts(later_parts, earlier_parts, roots, rows)?)
}
