// The refusals of document 01, "What is refused, in checking order", by name. specs/Refusals gives each its number.
#![tactic(auto)]

ghost use Rattle.std.specs.Prelude.{◌≡◌, cond};
ghost use Rattle.refusals.specs.Refusals.{number_of, answer_number};

#[derive(Clone, Copy, Debug, PartialEq, Eq)]
pub enum Refusal {
    BadLine,
    UnfitMemory,
    UnknownKind,
    BadDate,
    BadField,
    BeforeLatest,
    NotBusinessDay,
    AlreadyExists,
    DoesNotExist,
    NoRowLeft,
    NotLive,
    WrongSequence,
    BadTiming,
    Lapsed,
    WrongState,
    BeforeDue,
    AfterLastDay,
}

// The paper's number of a refusal.
impl From<Refusal> for u64 {
    ghost from_gives = { λ r n. n ≡ number_of r };

    fn from(r: Refusal) -> u64 {
        match r {
            Refusal::BadLine => 1,
            Refusal::UnfitMemory => 2,
            Refusal::UnknownKind => 3,
            Refusal::BadDate => 4,
            Refusal::BadField => 5,
            Refusal::BeforeLatest => 6,
            Refusal::NotBusinessDay => 7,
            Refusal::AlreadyExists => 8,
            Refusal::DoesNotExist => 9,
            Refusal::NoRowLeft => 10,
            Refusal::NotLive => 11,
            Refusal::WrongSequence => 12,
            Refusal::BadTiming => 13,
            Refusal::Lapsed => 14,
            Refusal::WrongState => 15,
            Refusal::BeforeDue => 16,
            Refusal::AfterLastDay => 17,
        }
    }
}

// What comes of one test: a refusal where it is not passed.
pub fn ensure<E: Drop>(passed: bool, error: E) -> Result<(), E>
    ensures { result ≡ cond passed (Ok tt) (Err error) }
{
    if passed { Ok(()) } else { Err(error) }
}

// The paper's number of an answer: 0 where nothing is refused.
pub fn answer_number<T>(answer: &Result<T, Refusal>) -> u64
    ensures { result ≡ answer_number answer.now }
{
    match answer {
        Ok(_) => 0,
        Err(r) => u64::from(*r),
    }
}
