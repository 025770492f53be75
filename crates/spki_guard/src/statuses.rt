//! How a run ends.

ghost use Rattle.std.specs.Prelude.{◌≡◌};
ghost use Rattle.spki_guard.specs.Program.{exit_code};

use crate::answers::Verdict;

/// How a run ended.
#[derive(Clone, Copy, Debug, PartialEq, Eq)]
pub enum Status {
    /// The whole answer was written. It has this verdict.
    Answered(Verdict),
    /// The reader failed, or had not ended after the largest number of calls. Nothing was written.
    ReadFault,
    /// The writer failed, or needs more than the largest number of calls. A beginning of the answer was written, which may be all
    /// or none of it.
    WriteFault,
}

impl Status {
    /// The exit status of the program: 0 for done, 1 for no, 2 for a refusal, 3 if reading or writing failed.
    pub fn code(self) -> u8
        ensures { result ≡ exit_code self }
    {
        match self {
            Status::Answered(Verdict::Done) => 0,
            Status::Answered(Verdict::No) => 1,
            Status::Answered(Verdict::Refused) => 2,
            Status::ReadFault | Status::WriteFault => 3,
        }
    }
}
