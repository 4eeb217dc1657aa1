// Calls, and the laws of what huts know after them. The definitions stand in specs/, the proofs in proofs/.
// A function with nothing to do is a theorem: its contract states it, and the crate is proved only with its proof.
#![tactic(auto)]

ghost use Rattle.std.specs.Prelude.{◌≡◌};
ghost use Rattle.calls.specs.Call.{hut_count};
ghost use Rattle.calls.specs.Law.{Onward, Robust, Swap, Composes, Turned};
ghost use Rattle.calls.specs.Number.{Written};

// The most huts that there can be.
pub const MOST_HUTS: u16 = 1024;

// Whether there can be n huts.
pub fn is_hut_count(n: u16) -> bool
    ensures { result ≡ hut_count n }
{
    (1..=MOST_HUTS).contains(&n)
}

// Nobody forgets.
pub fn nobody_forgets()
    ensures { Onward }
{}

// Other calls in between do no harm.
pub fn others_do_no_harm()
    ensures { Robust }
{}

// Two neighbouring calls that share no hut may change places.
pub fn calls_apart_change_places()
    ensures { Swap }
{}

// What happens before and after a moment composes.
pub fn before_and_after_compose()
    ensures { Composes }
{}

// In turned time news goes the other way.
pub fn turned_time_turns_news()
    ensures { Turned }
{}

// Calls are written down as numbers, and read back, without loss.
pub fn numbers_stand_for_calls()
    ensures { Written }
{}
