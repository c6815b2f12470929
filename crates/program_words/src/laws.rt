//! Which words ask for a command.

ghost use Rattle.program_words.specs.Spelled.{SpelledAsked};

/// Words that write a command are taken by `clap`, and ask for it. A function with no effect, whose contract is the law.
pub fn law_spelled()
    ensures { SpelledAsked }
{}
