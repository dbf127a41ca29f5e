//! The worked examples of the rules, proved of the definitions that the contracts cite.
ghost use Rattle.contents.specs.Examples.{WorkedExamples};

// Does nothing: its contract is the statement.
pub fn worked_examples()
    ensures { WorkedExamples }
{}
