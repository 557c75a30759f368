// What a pattern does: the states that reach a set, and whether a sequence is accepted.
ghost use Rattle.std.specs.Prelude.{◌≡◌, ℕ, ◌%◌, ◌^◌, false, length, Some, None, Decides, MatchResult, take, slice_index_or};
ghost use Rattle.sets.specs.Sets.{has, set_of, Within};
ghost use Rattle.sets.specs.Events.{lowered};
ghost use Rattle.patterns.specs.Accepted.{Step, Accepted};
ghost use Rattle.patterns.specs.Automaton.{read, root, states};
ghost use Rattle.patterns.specs.Formed.{StateFree};
ghost use Rattle.patterns.specs.Questions.{judged};
ghost use Rattle.patterns.specs.Tables.{tables};
ghost use Rattle.patterns.specs.Values.{value, values, back, backs};
ghost use Rattle.patterns.specs.View.{automaton};

use crate::fault::Fault;
use crate::over::Over;
use crate::parts::{Checked, Parts};
use crate::pattern::Pattern;
use crate::questions::MAX_ROWS;
use sets::{Event, States, add, holds};

impl<'a> Parts<'a> {
    // Whether the pattern in these parts accepts the events, or the first fault of the parts.
    pub fn accepts(self, events: &[Event]) -> Result<bool, Fault>
        ensures { MatchResult result
            (λ accepted. (judged (read self.entry) ≡ None) × Decides accepted (Accepted (read self.entry) events.now))
            (λ f. judged (read self.entry) ≡ Some f) }
    {
        let pattern = self.checked()?.seal();
        Ok(pattern.matches(events))
    }
}

impl<'a> Checked<'a> {
    // The pattern in the checked parts.
    pub fn seal(self) -> Pattern<'a>
        ensures { automaton result ≡ tables self.entry }
    {
        Pattern { parts: self.parts }
    }
}

impl<'a> Pattern<'a> {
    // The states whose root row is 1 under the event and the set: exactly the sets within the answer have a step under
    // the event to the set. A larger set is reached from at least as many states, a row free of states is worth the
    // same under every set, and the event's bits from the number of signals up make no difference.
    pub fn back(&self, event: Event, states: States) -> States
        ensures value { result ≡ back (automaton self.now) event states }
        ensures steps { (c : ℕ) → (Step (automaton self.now) event c states → Within c result)
            × (Within c result → Step (automaton self.now) event c states) }
        ensures grows { (d : ℕ) → Within states d → Within result (back (automaton self.now) event d) }
        ensures free { (i d : ℕ) → StateFree (automaton self.now) i
            → value (automaton self.now) event states i ≡ value (automaton self.now) event d i }
        ensures signals { result ≡ back (automaton self.now) (event % 2 ^ (automaton self.now).signals) states }
    {
        let mut table = [false; MAX_ROWS];
        self.evaluate(event, states, &mut table);
        self.collect(&table)
    }

    // Whether the pattern accepts the events. Their bits from the number of signals up make no difference.
    #[tactic(auto, using(crate::proofs::Made::matched, crate::proofs::Made::matched_lowered))]
    pub fn matches(&self, events: &[Event]) -> bool
        ensures accepted { Decides result (Accepted (automaton self.now) events.now) }
        ensures signals { Decides result (Accepted (automaton self.now)
            (lowered (automaton self.now).signals events.now)) }
    {
        holds(self.work_back(events), self.parts.start as usize)
    }

    // The states that some run under the events leads from to a subset of the final states: the events worked back from
    // the final set, the last first.
    #[tactic(auto, using(crate::proofs::Accepting::backs_folded))]
    fn work_back(&self, events: &[Event]) -> States
        ensures { result ≡ backs (automaton self.now) events.now (automaton self.now).finals }
    {
        events.iter().rev().fold(self.parts.finals, |states, event| self.back(*event, states))
    }

    // Writes the value of each row into the front of the table, in one pass: operands come before their row.
    // Stays: the library has no heap, so the values are the front of a table as long as a pattern's can be.
    #[tactic(auto, using(crate::proofs::Made::few_rows))]
    fn evaluate(&self, event: Event, states: States, table: &mut [bool; MAX_ROWS])
        ensures { take (length self.now.parts.rows.now) table.new ≡ values self.now.parts.rows.now event states }
    {
        for (i, row) in self.parts.rows.iter().enumerate() {
            let before = &table[..i];
            let row = Over { row: *row, before };
            let value = row.value(event, states);
            table[i] = value;
        }
    }

    // The states whose root row is 1, by the table of the rows' values.
    fn collect(&self, table: &[bool; MAX_ROWS]) -> States
        ensures { result ≡ set_of (λ q. slice_index_or table.now (root (automaton self.now) q) false)
            (states (automaton self.now)) }
    {
        let mut found = 0;
        for (q, root) in self.parts.roots.iter().enumerate() {
            if table[*root as usize] {
                found = add(found, q);
            }
        }
        found
    }
}
