// Why a call is refused. docs/refusals.md has the list.
ghost use Rattle.std.specs.Prelude.{◌≡◌};
ghost use Rattle.coder.specs.Refused.{number_of};

// The refusals, in the order of their numbers, which begin with 1. They have the names of the C interface.
#[derive(Clone, Copy, Debug, PartialEq, Eq)]
pub enum Refusal {
    ShortFile,
    Version,
    FileLength,
    Counts,
    CountField,
    Entry,
    StartState,
    WindowSide,
    NumberOfLetters,
    TableSize,
    ShortBuffer,
    InputLetter,
    ReceivedLetter,
    SettleCount,
    UnusedOutput,
    Kinds,
    Row,
}

impl Refusal {
    // The refusal's number in the list.
    pub fn number(self) -> usize
        ensures { result ≡ number_of self }
    {
        match self {
            Refusal::ShortFile => 1,
            Refusal::Version => 2,
            Refusal::FileLength => 3,
            Refusal::Counts => 4,
            Refusal::CountField => 5,
            Refusal::Entry => 6,
            Refusal::StartState => 7,
            Refusal::WindowSide => 8,
            Refusal::NumberOfLetters => 9,
            Refusal::TableSize => 10,
            Refusal::ShortBuffer => 11,
            Refusal::InputLetter => 12,
            Refusal::ReceivedLetter => 13,
            Refusal::SettleCount => 14,
            Refusal::UnusedOutput => 15,
            Refusal::Kinds => 16,
            Refusal::Row => 17,
        }
    }
}
