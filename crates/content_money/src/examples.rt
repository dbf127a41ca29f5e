//! The worked examples of the rules, proved of the definitions that the contracts cite.
ghost use Rattle.content_money.specs.Examples.{WorkedContents};

// Does nothing: its contract is the statement.
pub fn worked_contents()
    ensures { WorkedContents }
{}
