// Why a call is refused: a case for each row of docs/REFUSALS.md, and its number.
#![tactic(auto)]

ghost use Rattle.std.specs.Prelude.{◌≡◌, Some, decimal};
ghost use Rattle.refusal.specs.Numbers.{place, number, refused};

use std::fmt;

/// A row of the check of an index: 5 to 9 for the first, 55 to 59 for the second.
#[derive(Clone, Copy, Debug, PartialEq, Eq)]
pub enum IndexRow {
    Unfit,
    MisplacedTerm,
    WrongStart,
    MisplacedPosting,
    RedundantPosting,
}

/// Why a call is refused, in the order of the numbers.
#[derive(Clone, Copy, Debug, PartialEq, Eq)]
pub enum Refusal {
    // 1 to 4: device tables
    UnevenTables,
    LastOutOfRange,
    OverlappingBranches,
    WrongRoot,
    // 5 to 9
    Index(IndexRow),
    // 10 to 15: a query, and terms in the wrong index
    TooManyTerms,
    NoTerm,
    NoLevelRange,
    NoStart,
    ListingTooShort,
    MisfiledTerm,
    // 20 to 29: plant text
    PlantTooLong,
    PlantForm,
    NumberOutOfRange,
    TooDeep,
    UnfinishedPlant,
    BytesAfterPlant,
    NoPlace,
    NotRising,
    Redundant,
    // 30 to 35: query text
    QueryTooLong,
    QueryForm,
    NumberTooLarge,
    UnfinishedQuery,
    BytesAfterQuery,
    NinthTerm,
    // 36, 40: writing plant text
    TooManyTiers,
    TextTooLong,
    // 41, 44: repair
    FallingDevices,
    ReportTooShort,
    // 55 to 59
    SecondIndex(IndexRow),
}

impl IndexRow {
    // Its number among the rows of an index, from 0 on.
    fn place(self) -> u32
        ensures { result ≡ place self }
    {
        match self {
            IndexRow::Unfit => 0,
            IndexRow::MisplacedTerm => 1,
            IndexRow::WrongStart => 2,
            IndexRow::MisplacedPosting => 3,
            IndexRow::RedundantPosting => 4,
        }
    }
}

impl Refusal {
    /// Its number.
    pub fn number(self) -> u32
        ensures { result ≡ number self }
    {
        match self {
            Refusal::UnevenTables => 1,
            Refusal::LastOutOfRange => 2,
            Refusal::OverlappingBranches => 3,
            Refusal::WrongRoot => 4,
            Refusal::Index(row) => 5 + row.place(),
            Refusal::TooManyTerms => 10,
            Refusal::NoTerm => 11,
            Refusal::NoLevelRange => 12,
            Refusal::NoStart => 13,
            Refusal::ListingTooShort => 14,
            Refusal::MisfiledTerm => 15,
            Refusal::PlantTooLong => 20,
            Refusal::PlantForm => 21,
            Refusal::NumberOutOfRange => 22,
            Refusal::TooDeep => 23,
            Refusal::UnfinishedPlant => 24,
            Refusal::BytesAfterPlant => 25,
            Refusal::NoPlace => 27,
            Refusal::NotRising => 28,
            Refusal::Redundant => 29,
            Refusal::QueryTooLong => 30,
            Refusal::QueryForm => 31,
            Refusal::NumberTooLarge => 32,
            Refusal::UnfinishedQuery => 33,
            Refusal::BytesAfterQuery => 34,
            Refusal::NinthTerm => 35,
            Refusal::TooManyTiers => 36,
            Refusal::TextTooLong => 40,
            Refusal::FallingDevices => 41,
            Refusal::ReportTooShort => 44,
            Refusal::SecondIndex(row) => 55 + row.place(),
        }
    }
}

impl fmt::Display for Refusal {
    ghost output = { λ refusal. Some (decimal (number refusal)) };

    fn fmt<W: fmt::Write>(&self, f: &mut fmt::Formatter<W>) -> fmt::Result {
        write!(f, "{}", self.number())
    }
}

/// Its number, or 0 where nothing is refused: as the functions for C hand it back.
pub fn number_or_zero<T>(answer: &Result<T, Refusal>) -> u32
    ensures { result ≡ refused answer.now }
{
    match answer {
        Ok(_) => 0,
        Err(refusal) => refusal.number(),
    }
}
