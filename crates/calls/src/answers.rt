// What the calls on a store answer.
ghost use Rattle.std.specs.Prelude.{◌≡◌};
ghost use Rattle.calls.specs.Numbers.{refusal_number, number_of, value_of};

// Why a call did nothing, in the order of 01's numbers.
#[derive(Clone, Copy, Debug, PartialEq, Eq)]
pub enum Refusal {
    NoProcess,
    Finished,
    Waiting,
    Stuck,
    WrongCommand,
    PlaceTaken,
    TooLarge,
    HistoryFull,
    NoMessage,
    NothingToUndo,
    Held,
    NoCheckpoint,
    NotAState,
    NoRoom,
    BadLine,
}

// The number that goes with an accepted call is a rollback's count of events or a listing's length, else 0.
pub type Answer = Result<u32, Refusal>;

impl From<Refusal> for u32 {
    ghost from_gives = { λ refusal number. number ≡ refusal_number refusal };

    // 01's number of a refusal.
    fn from(refusal: Refusal) -> u32 {
        match refusal {
            Refusal::NoProcess => 3,
            Refusal::Finished => 4,
            Refusal::Waiting => 5,
            Refusal::Stuck => 6,
            Refusal::WrongCommand => 7,
            Refusal::PlaceTaken => 8,
            Refusal::TooLarge => 9,
            Refusal::HistoryFull => 10,
            Refusal::NoMessage => 11,
            Refusal::NothingToUndo => 12,
            Refusal::Held => 13,
            Refusal::NoCheckpoint => 14,
            Refusal::NotAState => 15,
            Refusal::NoRoom => 16,
            Refusal::BadLine => 17,
        }
    }
}

// 01's number of an answer.
#[tactic(auto, unfolding(crate::specs::Numbers::number_of))]
pub fn number(a: Answer) -> u32
    ensures { result ≡ number_of a }
{
    match a {
        Ok(_count) => 0,
        Err(refusal) => u32::from(refusal),
    }
}

// The count or length that goes with it.
#[tactic(auto, unfolding(crate::specs::Numbers::value_of))]
pub fn value(a: Answer) -> u32
    ensures { result ≡ value_of a }
{
    a.unwrap_or(0)
}
