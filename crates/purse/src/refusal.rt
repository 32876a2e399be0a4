// Why a step is refused. The documents number the reasons: `number_of` (specs/Refusals) is their table. Each reason has the name that prs.h
// gives its number.
ghost use Rattle.std.specs.Prelude.{◌≡◌};
ghost use Rattle.purse.specs.Refusals.{number_of, refused_if};

#[derive(Clone, Copy, PartialEq, Eq)]
pub enum Refusal {
    NotWellFormed,
    BadEvent,
    NoPurse,
    NoMessage,
    BadCounterparty,
    BadAmount,
    Busy,
    NumbersUsedUp,
    LogFull,
    AboveBalance,
    AboveCeiling,
    NotExpected,
    LogEmpty,
    ArchiveFull,
    BadLength,
    WrongMark,
    WrongVersion,
    BufferTooShort,
    BadCount,
    BalanceAboveCeiling,
    BadClass,
    TableFull,
}

// A refusal's number in the documents' table.
impl From<Refusal> for u8 {
    ghost from_gives = { λ why number. number ≡ number_of why };

    fn from(why: Refusal) -> u8 {
        match why {
            Refusal::NotWellFormed => 2,
            Refusal::BadEvent => 3,
            Refusal::NoPurse => 4,
            Refusal::NoMessage => 5,
            Refusal::BadCounterparty => 6,
            Refusal::BadAmount => 7,
            Refusal::Busy => 8,
            Refusal::NumbersUsedUp => 9,
            Refusal::LogFull => 10,
            Refusal::AboveBalance => 11,
            Refusal::AboveCeiling => 12,
            Refusal::NotExpected => 13,
            Refusal::LogEmpty => 14,
            Refusal::ArchiveFull => 15,
            Refusal::BadLength => 16,
            Refusal::WrongMark => 17,
            Refusal::WrongVersion => 18,
            Refusal::BufferTooShort => 19,
            Refusal::BadCount => 20,
            Refusal::BalanceAboveCeiling => 21,
            Refusal::BadClass => 22,
            Refusal::TableFull => 24,
        }
    }
}

// One test of a list of tests: refused for that reason where it applies. With `?` the tests are asked in their order, and the first that applies
// refuses.
pub fn refuse_if(applies: bool, why: Refusal) -> Result<(), Refusal>
    ensures { result ≡ refused_if applies why }
{
    if applies { Err(why) } else { Ok(()) }
}
