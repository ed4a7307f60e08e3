//! How a run ends, and the status of each end.

ghost use Rattle.std.specs.Prelude.{◌≡◌};

/// How a run of the program ends.
#[derive(Clone, Copy, Debug, PartialEq, Eq)]
pub enum Ending {
    /// The command did its work; for a plan, the layout is the cheapest.
    Done,
    /// The words are no command.
    Usage,
    /// The input is no site.
    SiteRefused,
    /// A legal layout was found, and the bound is below its cost.
    Gap,
    /// No legal layout was found, and none is excluded.
    Partial,
    /// No legal layout exists.
    Infeasible,
    /// The input is no accepted document.
    DocumentRefused,
    /// The input could not be read.
    ReadFault,
    /// The output or a note could not be written.
    WriteFault,
    /// Memory ran out.
    Memory,
}

impl Ending {
    ghost use Rattle.run_definitions.specs.Ends.{status_of};

    /// The number that the process ends with, from 0 to 9.
    pub fn status(self) -> u8
        ensures { result ≡ status_of self }
    {
        match self {
            Ending::Done => 0,
            Ending::Usage => 1,
            Ending::SiteRefused => 2,
            Ending::Gap => 3,
            Ending::Partial => 4,
            Ending::Infeasible => 5,
            Ending::DocumentRefused => 6,
            Ending::ReadFault => 7,
            Ending::WriteFault => 8,
            Ending::Memory => 9,
        }
    }
}
