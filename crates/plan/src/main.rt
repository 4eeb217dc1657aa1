// Prints the plan of calls for a number of huts that can all call each other.
#![tactic(auto)]

ghost use Rattle.std.specs.Prelude.{map, string_bytes};
ghost use Rattle.plan.specs.Printed.{Prints, Answered, AnsweredFirst, IsRetold, Replies};

use faults::Fault;
use std::alloc::Global;
use std::process::ExitCode;
use tool::{Bad, Failure, Program, Takes, Words};

const PLAN: Program = Program {
    name: "plan",
    takes: Takes::Number,
    usage: "usage: plan HUTS",
    about: "Prints the plan of calls for HUTS huts, 1 to 1024, that can all call each other:
after these calls, in their order, every hut knows what every hut saw, and no
list of calls whatever brings that about with fewer.
Each line is a call, the caller first: '0 4' says that hut 0 calls hut 4. Then
comes 'square A B C D', the four huts in the middle, or 'no square' below four
huts, and last the number of calls.

Example: 'plan 200' prints 396 calls, then 'square 0 1 2 3', then '396 calls'.

Status 0: done. Status 1: the number was refused, or the command line is wrong;
then nothing is printed on standard output.
",
};

// The plan for n huts as it is printed.
#[tactic(auto, using(crate::proofs::Plans::shown_planned))]
fn text(heap: Global, n: u16) -> Result<String, Fault>
    ensures prints { Prints n result }
{
    let plan = plans::for_huts(heap, n)?;
    Ok(plan.to_string(heap)?)
}

// What is printed for a word that should be a number of huts.
fn planned<'a>(heap: Global, word: &'a str) -> Result<String, Failure<'a>>
    ensures answered { Answered word.now result }
{
    let Some(n) = texts::number(word.as_bytes()) else {
        return Err(Failure::NoNumber(word));
    };
    text(heap, n).map_err(|fault| Failure::Bad(word, Bad::Refused(fault)))
}

// What is printed for the words that are no options.
fn said<'a>(heap: Global, words: Words<'a>) -> Result<String, Failure<'a>>
    ensures answered { AnsweredFirst words.entry.first result }
{
    let word = words.first.ok_or(Failure::Missing("the number of huts"))?;
    planned(heap, word)
}

// A failure as this program has always told it: where there is no memory for the version either, '--help' is named.
fn retold(failure: Failure<'_>) -> Failure<'_>
    ensures retold { IsRetold failure.entry result }
{
    match failure {
        Failure::Bad("--version", bad) => Failure::Bad("--help", bad),
        other => other,
    }
}

// What is printed on standard output.
fn answer<'a>(heap: Global, words: &'a [String]) -> Result<String, Failure<'a>>
    ensures replies { Replies (map string_bytes words.now) result }
{
    PLAN.reply(heap, words, |words| said(heap, words))
        .map_err(retold)
}

fn main(rt: HostRuntime) -> ExitCode {
    PLAN.run(&rt, |words| answer(rt.alloc(), words))
}

#[cfg(test)]
mod tests {
    use super::*;
    use std::alloc::AllocError;
    use std::io;
    use std::io::ErrorKind;
    use std::test::Fail;
    use tool::{Complaint, forgiving};

    const HELP: &str = "usage: plan HUTS
       plan --help | --version

Prints the plan of calls for HUTS huts, 1 to 1024, that can all call each other:
after these calls, in their order, every hut knows what every hut saw, and no
list of calls whatever brings that about with fewer.
Each line is a call, the caller first: '0 4' says that hut 0 calls hut 4. Then
comes 'square A B C D', the four huts in the middle, or 'no square' below four
huts, and last the number of calls.

Example: 'plan 200' prints 396 calls, then 'square 0 1 2 3', then '396 calls'.

Status 0: done. Status 1: the number was refused, or the command line is wrong;
then nothing is printed on standard output.
";

    const VERSION: &str = "plan 0.1.0, proved with rattle-kit-13f logic dac8208d650f15bf
";

    const WRONG: &str = "\nusage: plan HUTS\nTry 'plan --help' for more information.";

    // What a command line, its words parted by single spaces, comes to.
    fn told(heap: Global, line: &str) -> Result<String, AllocError> {
        let mut words = Vec::new(heap);
        for word in line.split(' ') {
            words.push(String::from_str(heap, word)?)?;
        }
        match answer(heap, words.as_slice()) {
            Ok(text) => Ok(text),
            Err(failure) => {
                let program = PLAN;
                Complaint { program, failure }.to_string(heap)
            }
        }
    }

    #[test]
    fn plans_are_printed(rt: HostRuntime) -> Result<(), Fail> {
        let heap = rt.alloc();
        let table = [
            ("1", "no square\n0 calls\n"),
            ("2", "0 1\nno square\n1 calls\n"),
            ("-- 3", "0 1\n0 2\n0 1\nno square\n3 calls\n"),
            (
                "05",
                "0 4\n0 1\n2 3\n0 2\n1 3\n0 4\nsquare 0 1 2 3\n6 calls\n",
            ),
            ("1024 --help", HELP),
            ("--version", VERSION),
        ];
        for (line, text) in table {
            assert_eq!(rt; told(heap, line)?.as_str(), text);
        }
        Ok(())
    }

    #[test]
    fn wrong_words_are_refused(rt: HostRuntime) -> Result<(), Fail> {
        let heap = rt.alloc();
        let table = [
            ("", "plan: '' is no number of huts"),
            ("4x", "plan: '4x' is no number of huts"),
            ("-4", "plan: unknown option '-4'"),
            ("4 5", "plan: one argument too many: '5'"),
            ("--", "plan: the number of huts is missing"),
            ("-- -4", "plan: '-4' is no number of huts"),
            ("-- --help", "plan: '--help' is no number of huts"),
        ];
        for (line, reason) in table {
            let text = format!(in heap; "{reason}{WRONG}")?;
            assert_eq!(rt; told(heap, line)?.as_str(), text.as_str());
        }
        Ok(())
    }

    #[test]
    fn only_a_reader_that_left_is_forgiven(rt: HostRuntime) {
        assert!(rt; forgiving(Ok(())).is_ok());
        assert!(rt; forgiving(Err(io::Error::from(ErrorKind::BrokenPipe))).is_ok());
        assert!(rt; forgiving(Err(io::Error::from(ErrorKind::StorageFull))).is_err());
    }

    #[test]
    fn wrong_numbers_are_refused(rt: HostRuntime) -> Result<(), Fail> {
        let heap = rt.alloc();
        for word in ["0", "1025", "65536", "18446744073709551616"] {
            let text = format!(in heap;
                "plan: {word}: refused 2: no huts, more than 1024, or a hut that isn't there"
            )?;
            assert_eq!(rt; told(heap, word)?.as_str(), text.as_str());
        }
        Ok(())
    }
}
