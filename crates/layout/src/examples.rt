//! Worked examples of layouts, proved of the definitions that the contracts cite.
ghost use Rattle.layout.specs.Examples.{WorkedLayouts};

// Does nothing: its contract is the statement.
pub fn worked_layouts()
    ensures { WorkedLayouts }
{}
