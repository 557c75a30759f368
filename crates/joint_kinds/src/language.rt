// What the joint kind accepts, in the words of sequences of events: what its pattern accepts and its model sends.
ghost use Rattle.joint_kinds.specs.Language.{joint_signals, joint_language, joint_speaks};

use crate::joint::Joint;
use kinds::language::Language;

impl<'a> Language for Joint<'a> {
    ghost signals = { joint_signals };

    ghost accepts = { joint_language };

    ghost speaks = { joint_speaks };
}
