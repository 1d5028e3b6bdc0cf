//! Checks ordinary code of a given size: `uc_bench KIND COUNT`.
#![tactic(auto)]

mod checking;
mod known;
mod making;
mod request;

ghost use Rattle.uc_bench.specs.Answers.{IsAnswerTo};
ghost use Rattle.uc_bench.specs.Requests.{texts_of};

use checking::is_checked;
use request::{Request, request_of};
use std::alloc::Global;
use std::process::ExitCode;
use std::{env, io};

/// What is answered: that the code was checked or refused, or why there is none.
enum Answer {
    Checked(Request),
    Refused(Request),
    Usage,
    Memory,
}

/// The words of the command line without the program's name. Words that aren't UTF-8 count as none.
fn words_of(alloc: Global, arguments: io::Result<env::Args>) -> Result<Vec<String>, io::ErrorKind> {
    let mut words = Vec::new(alloc);
    match arguments {
        Ok(arguments) => {
            for word in arguments.skip(1) {
                if words.push(word).is_err() {
                    return Err(io::ErrorKind::OutOfMemory);
                }
            }
            Ok(words)
        }
        Err(error) => match error.kind() {
            io::ErrorKind::OutOfMemory => Err(io::ErrorKind::OutOfMemory),
            _ => Ok(words),
        },
    }
}

/// Makes the code that the words ask for, and checks it.
fn answer_to(alloc: Global, words: &[String]) -> Answer
    ensures { IsAnswerTo (texts_of words.now) result }
{
    match request_of(words) {
        Some(request) => match is_checked(alloc, request) {
            Ok(true) => Answer::Checked(request),
            Ok(false) => Answer::Refused(request),
            Err(_) => Answer::Memory,
        },
        None => Answer::Usage,
    }
}

/// Writes the line of an answer, and gives its status.
fn write(rt: &impl Print, answer: Answer) -> io::Result<u8> {
    match answer {
        Answer::Checked(request) => {
            println!(rt; "{} {} checked", request.count, request.kind.word())?;
            Ok(0)
        }
        Answer::Refused(request) => {
            println!(rt; "{} {} refused", request.count, request.kind.word())?;
            Ok(1)
        }
        Answer::Usage => {
            println!(rt; "usage: uc_bench applications|bindings|cases COUNT")?;
            Ok(2)
        }
        Answer::Memory => {
            println!(rt; "want of memory")?;
            Ok(3)
        }
    }
}

/// Status 5 says that the line couldn't be written.
fn main(rt: HostRuntime) -> ExitCode {
    let alloc = rt.alloc();
    let answer = match words_of(alloc, env::args(&rt)) {
        Ok(words) => answer_to(alloc, &words),
        Err(_) => Answer::Memory,
    };
    match write(&rt, answer) {
        Ok(status) => ExitCode::from(status),
        Err(_) => ExitCode::from(5),
    }
}
