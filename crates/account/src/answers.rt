// What comes back for an account file and for the questions put to it: `Ok`, or the refusal.
ghost use Rattle.std.specs.Prelude.{◌≡◌};
ghost use Rattle.account.specs.Answers as Answers;
ghost use Rattle.account.specs.Answers.{number_of, record_of, refusal_number, refusal_record};

// The record at fault, or how many records there are, is with the case.
#[derive(Clone, Copy)]
pub enum Refusal {
    TooLong,
    CutRecord,
    UnknownKind(usize),
    KindFalls(usize),
    UnusedByte(usize),
    FieldOutside(usize),
    Unlisted(usize),
    OutOfOrder(usize),
    OverLimit(usize),
    TooFewNumbers(usize),
    NoSuchQuestion(usize),
    NoonSpread(usize),
    TooManyJoined(usize),
    NoRate(usize),
    ConversionBeyond(usize),
    TooFewBytes,
    LengthsDiffer,
    OtherCounts,
    TooManyAccounts,
    LimitBelowZero,
    AmountOutside(usize),
    NoTicketLeft,
}

impl Refusal {
    // The paper's number.
    pub fn number(self) -> usize
        ensures { result ≡ refusal_number self }
    {
        match self {
            Refusal::TooLong => 1,
            Refusal::CutRecord => 2,
            Refusal::UnknownKind(_) => 3,
            Refusal::KindFalls(_) => 4,
            Refusal::UnusedByte(_) => 5,
            Refusal::FieldOutside(_) => 6,
            Refusal::Unlisted(_) => 7,
            Refusal::OutOfOrder(_) => 8,
            Refusal::OverLimit(_) => 9,
            Refusal::TooFewNumbers(_) => 10,
            Refusal::NoSuchQuestion(_) => 11,
            Refusal::NoonSpread(_) => 12,
            Refusal::TooManyJoined(_) => 13,
            Refusal::NoRate(_) => 14,
            Refusal::ConversionBeyond(_) => 15,
            Refusal::TooFewBytes => 16,
            Refusal::LengthsDiffer => 17,
            Refusal::OtherCounts => 18,
            Refusal::TooManyAccounts => 19,
            Refusal::LimitBelowZero => 20,
            Refusal::AmountOutside(_) => 21,
            Refusal::NoTicketLeft => 22,
        }
    }

    // The record that it names, 0 where it names none.
    pub fn record(self) -> usize
        ensures { result ≡ refusal_record self }
    {
        match self {
            Refusal::UnknownKind(k)
            | Refusal::KindFalls(k)
            | Refusal::UnusedByte(k)
            | Refusal::FieldOutside(k)
            | Refusal::Unlisted(k)
            | Refusal::OutOfOrder(k)
            | Refusal::OverLimit(k)
            | Refusal::TooFewNumbers(k)
            | Refusal::NoSuchQuestion(k)
            | Refusal::NoonSpread(k)
            | Refusal::TooManyJoined(k)
            | Refusal::NoRate(k)
            | Refusal::ConversionBeyond(k)
            | Refusal::AmountOutside(k) => k,
            Refusal::TooLong
            | Refusal::CutRecord
            | Refusal::TooFewBytes
            | Refusal::LengthsDiffer
            | Refusal::OtherCounts
            | Refusal::TooManyAccounts
            | Refusal::LimitBelowZero
            | Refusal::NoTicketLeft => 0,
        }
    }
}

// The number of what comes back, 0 where nothing is refused.
pub fn number_of(answer: Result<(), Refusal>) -> usize
    ensures { result ≡ number_of answer }
{
    match answer {
        Ok(()) => 0,
        Err(refusal) => refusal.number(),
    }
}

// The record that comes back with it, 0 where none is named.
pub fn record_of(answer: Result<(), Refusal>) -> usize
    ensures { result ≡ record_of answer }
{
    match answer {
        Ok(()) => 0,
        Err(refusal) => refusal.record(),
    }
}

// The refusal of record `k` by its number, 3 to 9, 14 or 15.
pub fn refusal_of(number: usize, k: usize) -> Result<(), Refusal>
    ensures { result ≡ Answers.refusal number k }
{
    if number == 3 {
        return Err(Refusal::UnknownKind(k));
    }
    if number == 4 {
        return Err(Refusal::KindFalls(k));
    }
    if number == 5 {
        return Err(Refusal::UnusedByte(k));
    }
    if number == 6 {
        return Err(Refusal::FieldOutside(k));
    }
    if number == 7 {
        return Err(Refusal::Unlisted(k));
    }
    if number == 8 {
        return Err(Refusal::OutOfOrder(k));
    }
    if number == 9 {
        return Err(Refusal::OverLimit(k));
    }
    if number == 14 {
        return Err(Refusal::NoRate(k));
    }
    if number == 15 {
        return Err(Refusal::ConversionBeyond(k));
    }
    Ok(())
}
