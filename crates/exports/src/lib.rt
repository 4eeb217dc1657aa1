// What callers in C and Rust can call.
#![tactic(auto)]

ghost use Rattle.std.specs.Prelude.{◌≡◌};
ghost use Rattle.exports.specs.Code.{code_of, Told};

use faults::Fault;
use knowledge::Outcome;
use std::alloc::Global;

// An answer as three numbers, the first for its kind: C takes no enum that holds values.
fn code(answer: Result<Outcome, Fault>) -> [u64; 3]
    ensures { result ≡ code_of answer }
{
    match answer {
        Ok(Outcome::Complete(made)) => [0, made as u64, 0],
        Ok(Outcome::Lacks(hut, other)) => [1, u64::from(hut), u64::from(other)],
        Err(fault) => [2, u64::from(fault.number()), 0],
    }
}

// What the calls come to among n huts, put into `told`: 0 and after how many calls all know everything; 1, the lowest hut that
// lacks something and the lowest that it lacks; or 2 and the number of the fault. `told` has three places; where it has not,
// the answer is false and `told` stays as it is.
#[unsafe(no_mangle)]
pub extern "C" fn purwefi_who_knows(heap: Global, n: u16, calls: &[u16], told: &mut [u64]) -> bool
    ensures told { Told n calls.now told.old result told.new }
{
    if told.len() != 3 {
        return false;
    }
    told.copy_from_slice(&code(knowledge::who_knows(heap, n, calls)));
    true
}

#[cfg(test)]
mod tests {
    use super::*;

    #[test]
    fn outcomes(rt: HostRuntime) {
        let table: [(u16, &[u16], [u64; 3]); 10] = [
            (1, &[], [0, 0, 0]),
            (2, &[], [1, 0, 1]),
            (4, &[0, 1, 2, 3, 0, 2, 1, 3], [0, 4, 0]),
            (4, &[0, 1, 2, 3, 0, 2, 1, 3, 3, 3], [0, 4, 0]),
            (4, &[0, 1, 2, 3, 0, 2], [1, 1, 2]),
            (
                6,
                &[0, 4, 0, 5, 0, 1, 2, 3, 0, 2, 1, 3, 0, 4, 0, 5],
                [0, 8, 0],
            ),
            (6, &[0, 4, 0, 1, 2, 3, 0, 2, 1, 3, 0, 4, 0, 5], [1, 1, 5]),
            (4, &[0, 1, 2], [2, 1, 0]),
            (4, &[0, 1, 2, 4], [2, 2, 0]),
            (1025, &[0], [2, 2, 0]),
        ];
        for (n, calls, code) in table {
            let mut told = [9; 3];
            assert!(rt; purwefi_who_knows(rt.alloc(), n, calls, &mut told));
            assert_eq!(rt; told, code);
        }
    }

    #[test]
    fn other_places_stay(rt: HostRuntime) {
        let mut told = [9; 2];
        assert!(rt; !purwefi_who_knows(rt.alloc(), 1, &[], &mut told));
        assert_eq!(rt; told, [9; 2]);
    }
}
