// What was answered, or the fault in its place.
ghost use Rattle.report.specs.Texts.{or_fault};

use shapes::fault::Fault;
use std::fmt;

// An answer as it prints itself, or the fault.
#[derive(Drop)]
pub struct OrFault<T>(pub Result<T, Fault>);

impl<T: fmt::Display + Drop> fmt::Display for OrFault<T> {
    ghost output = { λ answer. or_fault T.output answer.0 };

    fn fmt<W: fmt::Write>(&self, f: &mut fmt::Formatter<W>) -> fmt::Result {
        match &self.0 {
            Ok(answer) => write!(f, "{answer}"),
            Err(fault) => write!(f, "{fault}"),
        }
    }
}
