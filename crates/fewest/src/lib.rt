// How many calls it takes at least, whatever they are. The statements stand in specs/, the proofs in proofs/.
// Each function has nothing to do: its contract is a theorem, and the crate is proved only with its proof.
#![tactic(auto)]

ghost use Rattle.fewest.specs.Fewest.{NoneFewer, AsManyAsHuts, OneToAll, AllToOne};
ghost use Rattle.fewest.specs.Own.{ComesBack, HearingCosts, FirstAndLast};

// What one hut saw takes a call for each other hut to come to everybody.
pub fn one_to_all()
    ensures { OneToAll }
{}

// For one hut to hear from everybody takes as many.
pub fn all_to_one()
    ensures { AllToOne }
{}

// From three huts on there are at least as many calls as huts.
pub fn as_many_as_huts()
    ensures { AsManyAsHuts }
{}

// From four huts on there are at least 2n - 4 calls, whatever they are.
pub fn none_fewer()
    ensures { NoneFewer }
{}

// A hut hears its own news exactly if at some moment another hut knows it from which it comes back.
pub fn own_news()
    ensures { ComesBack }
{}

// Calls in which somebody hears its own news could do with a hut fewer and two calls fewer.
pub fn hearing_costs()
    ensures { HearingCosts }
{}

// Where nobody hears its own news, first calls are first for both, and last calls last for both.
pub fn first_and_last()
    ensures { FirstAndLast }
{}
