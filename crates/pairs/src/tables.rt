// "B without A" of two patterns, in the caller's tables.
ghost use Rattle.std.specs.Prelude.{◌≡◌, ◌+◌, ◌≤◌, length, Some, None, MatchResult};
ghost use Rattle.patterns.specs.Automaton.{read, states};
ghost use Rattle.patterns.specs.Formed.{Formed};
ghost use Rattle.patterns.specs.Questions.{judged};
ghost use Rattle.patterns.specs.View.{automaton};
ghost use Rattle.files.specs.Layout.{fronted};
ghost use Rattle.duals.specs.Complement.{Fits};
ghost use Rattle.duals.specs.Without.{without, row_count_of, state_count_of, last_row_of, final_in, larger};
ghost use Rattle.pairs.specs.Paired.{Paired, pair_heading_of};
ghost use Rattle.pairs.specs.Questions.{pair_fault};

use crate::dual::Shift;
use crate::fault::PairFault;
use files::heading::Heading;
use patterns::parts::Parts;
use patterns::pattern::Pattern;
use patterns::questions::MAX_ROWS;
use patterns::row::{Operation, Row};
use sets::{MAX_STATES, States, add, holds};

// Puts the pattern "later without earlier" into the fronts of the caller's tables, and answers its heading: it accepts
// the sequences that `later` accepts and `earlier` does not. What lies behind it in the tables stays, and a refusal
// changes nothing.
pub fn pair_tables(
    later: &Pattern,
    earlier: &Pattern,
    roots: &mut [u16],
    rows: &mut [Row],
) -> Result<Heading, PairFault>
    ensures { Paired (automaton later.now) (automaton earlier.now)
        (pair_fault (automaton later.now) (automaton earlier.now) (length roots.old) (length rows.old))
        result roots.old roots.new rows.old rows.new }
{
    pair_parts(later.parts(), earlier.parts(), roots, rows)
}

// The same of parts that are known to be patterns.
pub(crate) fn pair_parts(
    later: Parts,
    earlier: Parts,
    roots: &mut [u16],
    rows: &mut [Row],
) -> Result<Heading, PairFault>
    requires later { Formed (read later) }
    requires earlier { Formed (read earlier) }
    ensures { Paired (read later.entry) (read earlier.entry)
        (pair_fault (read later.entry) (read earlier.entry) (length roots.old) (length rows.old))
        result roots.old roots.new rows.old rows.new }
{
    let pair = Pair::sized(later, earlier, roots.len(), rows.len())?;
    pair.fill_roots(roots);
    pair.fill_rows(rows);
    Ok(pair.heading())
}

// Two patterns, and "later without earlier" has at most 64 states and 1,024 rows.
#[derive(Clone, Copy)]
struct Pair<'a> {
    later: Parts<'a>,
    earlier: Parts<'a>,
    ghost later_judged: { judged (read later) ≡ None },
    ghost earlier_judged: { judged (read earlier) ≡ None },
    ghost fits: { Fits (read later) (read earlier) },
}

impl<'a> Pair<'a> {
    // The pair, unless it has too many states or rows, or tables of so many roots and rows don't hold what it makes.
    fn sized(
        later: Parts<'a>,
        earlier: Parts<'a>,
        roots: usize,
        rows: usize,
    ) -> Result<Pair<'a>, PairFault>
        requires later { Formed (read later) }
        requires earlier { Formed (read earlier) }
        ensures { MatchResult result
            (λ p. (pair_fault (read later.entry) (read earlier.entry) roots rows ≡ None)
            × (read p.later ≡ read later.entry) × (read p.earlier ≡ read earlier.entry))
            (λ f. pair_fault (read later.entry) (read earlier.entry) roots rows ≡ Some f) }
    {
        let state_count = later.roots.len() + earlier.roots.len() + 1;
        let row_count = later.rows.len() + 2 * earlier.rows.len() + 1;
        if state_count > MAX_STATES {
            return Err(PairFault::States);
        }
        if row_count > MAX_ROWS {
            return Err(PairFault::Rows);
        }
        if state_count > roots || row_count > rows {
            return Err(PairFault::Room);
        }
        Ok(Pair { later, earlier })
    }

    // Where the earlier pattern's rows and states go.
    fn shift(self) -> Shift
        ensures base { result.base ≡ length (read self.entry.later).rows }
        ensures states { result.states ≡ states (read self.entry.later) }
    {
        Shift {
            base: self.later.rows.len(),
            states: self.later.roots.len(),
        }
    }

    // Writes the roots: the later pattern's, the duals of the earlier one's, and the last row for the state that starts.
    fn fill_roots(self, roots: &mut [u16])
        requires { state_count_of (read self.later) (read self.earlier) + 1 ≤ length roots.old }
        ensures { roots.new ≡ fronted (without (read self.entry.later) (read self.entry.earlier)).roots roots.old }
    {
        let shift = self.shift();
        copy_front(self.later.roots, roots);
        for (q, root) in self.earlier.roots.iter().enumerate() {
            roots[shift.states + q] = shift.dual_place(*root);
        }
        roots[shift.states + self.earlier.roots.len()] = (shift.base
            + 2 * self.earlier.rows.len()) as u16;
    }

    // Writes the rows: the later pattern's as they are, the pairs of the earlier one's behind them, and the last row.
    fn fill_rows(self, rows: &mut [Row])
        requires { row_count_of (read self.later) (read self.earlier) + 1 ≤ length rows.old }
        ensures { rows.new ≡ fronted (without (read self.entry.later) (read self.entry.earlier)).rows rows.old }
    {
        let base = self.later.rows.len();
        copy_front(self.later.rows, rows);
        self.shift().dualise(&mut rows[base..], self.earlier);
        rows[base + 2 * self.earlier.rows.len()] = self.last_row();
    }

    // The condition of the state that starts: the later pattern's start and the dual of the earlier one's at once.
    fn last_row(self) -> Row
        ensures { result ≡ last_row_of (read self.entry.later) (read self.entry.earlier) }
    {
        Row {
            operation: Operation::And as u8,
            left: self.later.roots[self.later.start as usize],
            right: self
                .shift()
                .dual_place(self.earlier.roots[self.earlier.start as usize]),
        }
    }

    // All of the pattern but its tables.
    fn heading(self) -> Heading
        ensures { result ≡ pair_heading_of (read self.entry.later) (read self.entry.earlier) }
    {
        let start = self.later.roots.len() + self.earlier.roots.len();
        let rows = self.later.rows.len() + 2 * self.earlier.rows.len() + 1;
        Heading {
            states: (start + 1) as u8,
            signals: self.signals(),
            start: start as u8,
            rows: rows as u16,
            finals: self.finals(),
        }
    }

    // The larger of the two numbers of signals.
    fn signals(self) -> u8
        ensures { result ≡ larger self.entry.later.signals self.entry.earlier.signals }
    {
        self.later.signals.max(self.earlier.signals)
    }

    // The final states, found one by one.
    // Stays: over a range, `filter` with `fold` leaves the goal open, though the calls in its closures need no more.
    fn finals(self) -> States
        ensures { result ≡ (without (read self.entry.later) (read self.entry.earlier)).finals }
    {
        let mut finals = 0;
        for q in 0..self.later.roots.len() + self.earlier.roots.len() + 1 {
            if self.is_final(q) {
                finals = add(finals, q);
            }
        }
        finals
    }

    // Whether a state is final: as in the later pattern, opposite to the earlier one, and for the state that starts both.
    fn is_final(self, q: usize) -> bool
        ensures { result ≡ final_in (read self.entry.later) (read self.entry.earlier) q }
    {
        let (later, earlier) = (self.later, self.earlier);
        let first = later.roots.len();
        if q < first {
            holds(later.finals, q)
        } else if q < first + earlier.roots.len() {
            !holds(earlier.finals, q - first)
        } else {
            holds(later.finals, later.start as usize)
                && !holds(earlier.finals, earlier.start as usize)
        }
    }
}

// Copies `source` to the front of the table.
fn copy_front<T: Copy>(source: &[T], table: &mut [T])
    requires { length source.now ≤ length table.old }
    ensures { table.new ≡ fronted source.now table.old }
{
    table[0..source.len()].copy_from_slice(source);
}
