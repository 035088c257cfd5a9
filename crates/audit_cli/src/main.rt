//! Jildravo, an auditor for the Security Policy Database of IPsec (RFC 4301).
#![tactic(auto)]

use audit_top::Outcome;
use pair_io::{RealFiles, RealSink, Text, WordList};
use std::env;
use std::env::FillError;
use std::io::ErrorKind;
use std::process::ExitCode;
use std::rt::Env;

// The environment without the program's own name, which may be a path that is no text.
#[derive(Drop)]
struct WithoutName<'a, R> {
    system: &'a R,
}

impl<R: Env> Env for WithoutName<'_, R> {
    fn arg(&self, i: usize, buf: &mut [u8]) -> Result<usize, FillError> {
        self.system.arg(i.saturating_add(1), buf)
    }

    fn var(&self, name: &str, buf: &mut [u8]) -> Result<usize, FillError> {
        self.system.var(name, buf)
    }

    fn var_at(&self, i: usize, buf: &mut [u8]) -> Result<usize, FillError> {
        self.system.var_at(i, buf)
    }
}

// The words behind the program's own name. One that is no text is in no command.
fn words<R: Env + AllocGlobal>(rt: &R) -> Result<WordList, Outcome> {
    let environment = (WithoutName { system: rt }, rt.alloc());
    let arguments = match env::args(&environment) {
        Ok(arguments) => arguments,
        Err(error) if error.kind() == ErrorKind::OutOfMemory => return Err(Outcome::NoMemory),
        Err(_) => return Err(Outcome::Usage),
    };
    let mut words = WordList::new(rt.alloc());
    for argument in arguments {
        words.push(Text::new(rt.alloc(), argument.as_str())?)?;
    }
    Ok(words)
}

fn main(rt: HostRuntime) -> ExitCode {
    let mut files = RealFiles::new(rt.alloc(), &rt);
    let mut out = RealSink::in_blocks(rt.stdout());
    let mut err = RealSink::new(rt.stderr());
    let outcome = match words(&rt) {
        Ok(words) => audit_top::run(
            rt.alloc(),
            &words,
            &mut files,
            &mut out,
            &mut err,
            &mut None,
        ),
        Err(outcome) => {
            audit_top::report(&outcome, &mut err);
            outcome
        }
    };
    ExitCode::from(audit_top::status(&outcome))
}
