// The worked examples: a table in specs/, and one theorem over all its rows.
#![tactic(auto)]

ghost use Rattle.examples.specs.Example.{TableHolds};

// Each row of the table is so.
pub fn examples_hold()
    ensures { TableHolds }
{}
