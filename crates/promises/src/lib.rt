// What the programs promise together. The definitions stand in specs/, the proofs in proofs/.
// A function with nothing to do is a theorem: its contract states it, and the crate is proved only with its proof.
#![tactic(auto)]

ghost use Rattle.promises.specs.Code.{Kept};

// The plan that is prescribed for lines, and the test whether a list of calls does it, are what they must be.
pub fn plans_and_checks_keep_it()
    ensures { Kept }
{}
