// What can be wrong with an input, each fault with its number, and want of memory beside them.
#![tactic(auto)]

ghost use Rattle.std.specs.Prelude.{◌≡◌, Some};
ghost use Rattle.faults.specs.Fault.{number_of, cause_of, shown_of};
ghost use Rattle.faults.specs.declared.Fault.TheVariants.{Memory};

use std::alloc::{AllocError, AllocFailed};
use std::error::Error;
use std::fmt;

#[derive(Clone, Copy, PartialEq, Eq, Debug)]
pub enum Fault {
    // An unknown kind of word, a bad length, or wrong last bytes.
    Malformed,
    // A number of huts of 0 or above 1,024, or a hut that isn't there.
    NoSuchHut,
    // Lines that don't rise, or a line of a hut with itself.
    Unsorted,
    // Not all huts are joined: the lowest that isn't joined to hut 0.
    NotJoined(u16),
    // A word that isn't awaited, or of another hut or day.
    NotAwaited,
    // Entries not in order, of a hut not in the list, with a number above 63 or of more than 16 bytes.
    BadEntry,
    // An entry that differs from one known of the same number.
    Conflict,
    // A call of the plan that may not be tried yet.
    TooEarly,
    // A plan with a call where there is no line.
    NoLine,
    // A plan of more than 4,096 calls.
    TooLong,
    // An entry of one's own after the first call was tried.
    Closed,
    // No fault of the input: there is no memory left.
    Memory,
}

impl Fault {
    // The number that users and callers in C know the fault by; 0 for want of memory, which is no fault of the input: a number and no Option, as C takes it.
    pub fn number(self) -> u8
        ensures { result ≡ number_of self }
    {
        match self {
            Fault::Malformed => 1,
            Fault::NoSuchHut => 2,
            Fault::Unsorted => 3,
            Fault::NotJoined(_) => 4,
            Fault::NotAwaited => 5,
            Fault::BadEntry => 6,
            Fault::Conflict => 7,
            Fault::TooEarly => 8,
            Fault::NoLine => 9,
            Fault::TooLong => 10,
            Fault::Closed => 11,
            Fault::Memory => 0,
        }
    }

    // The fault in words.
    fn in_words(self) -> &'static str
        ensures { result.now ≡ cause_of self }
    {
        match self {
            Fault::Malformed => "unknown kind, bad length or wrong last bytes",
            Fault::NoSuchHut => "no huts, more than 1024, or a hut that isn't there",
            Fault::Unsorted => "lines that don't rise, or of a hut with itself",
            Fault::NotJoined(_) => "not all huts are joined",
            Fault::NotAwaited => "a word that isn't awaited, or of another hut or day",
            Fault::BadEntry =>
                "an entry out of order, of a hut not listed, above 63 or over 16 bytes",
            Fault::Conflict => "an entry that differs from one known of the same number",
            Fault::TooEarly => "a call of the plan that may not be tried yet",
            Fault::NoLine => "a call where there is no line",
            Fault::TooLong => "a plan of more than 4096 calls",
            Fault::Closed => "an entry of one's own after the first call was tried",
            Fault::Memory => "out of memory",
        }
    }
}

impl fmt::Display for Fault {
    ghost output = { λ f. Some (shown_of f) };

    fn fmt<W: fmt::Write>(&self, f: &mut fmt::Formatter<W>) -> fmt::Result {
        let number = self.number();
        let cause = self.in_words();
        match *self {
            Fault::Memory => f.write_str(cause),
            Fault::NotJoined(hut) => write!(f, "refused {number}: {cause}: hut {hut}"),
            _ => write!(f, "refused {number}: {cause}"),
        }
    }
}

impl Error for Fault {}

impl From<AllocError> for Fault {
    ghost from_gives = { λ _ r. r ≡ Memory };

    fn from(_e: AllocError) -> Fault {
        Fault::Memory
    }
}

impl<T: Drop> From<AllocFailed<T>> for Fault {
    ghost from_gives = { λ _ r. r ≡ Memory };

    fn from(_e: AllocFailed<T>) -> Fault {
        Fault::Memory
    }
}
