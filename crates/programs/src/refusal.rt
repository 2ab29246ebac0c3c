// A refusal as a program prints it (document 01, "What comes back").
ghost use Rattle.std.specs.Prelude.{◌≡◌, Some};
ghost use Rattle.packet.specs.Numbers.{reason_number, file_number};
ghost use Rattle.programs.specs.Printed.{refusal_text};

use packet::{File, Reason};
use std::fmt;

// The numbers of a refusal, of its file and of its place.
#[derive(Clone, Copy)]
pub struct RefusalNumbers {
    pub reason: usize,
    pub file: usize,
    pub place: usize,
}

impl RefusalNumbers {
    pub fn new(reason: Reason, file: File, place: usize) -> Self
        ensures reason { result.reason ≡ reason_number reason }
        ensures file { result.file ≡ file_number file }
        ensures place { result.place ≡ place }
    {
        RefusalNumbers {
            reason: packet::reason_number(reason) as usize,
            file: packet::file_number(file) as usize,
            place,
        }
    }
}

impl fmt::Display for RefusalNumbers {
    ghost output = { λ n. Some (refusal_text n.reason n.file n.place) };

    fn fmt<W: fmt::Write>(&self, f: &mut fmt::Formatter<W>) -> fmt::Result {
        let RefusalNumbers {
            reason,
            file,
            place,
        } = *self;
        write!(f, "refused {reason} {file} {place}")
    }
}
