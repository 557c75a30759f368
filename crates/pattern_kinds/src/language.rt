// What the pattern kind accepts, in the words of sequences of events: what its pattern accepts.
ghost use Rattle.pattern_kinds.specs.Language.{pattern_signals, pattern_language, pattern_speaks};

use crate::pattern::Single;
use kinds::language::Language;

impl<'a> Language for Single<'a> {
    ghost signals = { pattern_signals };

    ghost accepts = { pattern_language };

    ghost speaks = { pattern_speaks };
}
