// Why a plan is refused.
ghost use Rattle.std.specs.Prelude.{◌≡◌};
ghost use Rattle.plan.specs.declared.refusal.Refusal.TheVariants.{NoMemory};
ghost use Rattle.plan.specs.Refusals.{refusal_number, refusal_record};

use std::alloc::{AllocError, AllocFailed};
use std::error::Error;
use std::fmt;

#[derive(Clone, Copy, PartialEq, Eq, Debug)]
pub enum Refusal {
    // no bytes, no whole records, or more than 64 of them
    Length,
    // the first record whose level, fourth byte, child or next is out of range
    Record(u16),
    // the records are no tree of areas
    NotATree,
    // the first record whose slots are wrong
    Slots(u16),
    // all the slots together are more than 1,024
    TooManySlots,
    // no memory for the plan's tables; this one has no number
    NoMemory,
}

impl Refusal {
    // The refusal's number, which the product prescribes; want of memory has none.
    pub fn number(self) -> Option<u8>
        ensures { result ≡ refusal_number self }
    {
        match self {
            Refusal::Length => Some(1),
            Refusal::Record(_) => Some(2),
            Refusal::NotATree => Some(3),
            Refusal::Slots(_) | Refusal::TooManySlots => Some(4),
            Refusal::NoMemory => None,
        }
    }

    // The record that the refusal names.
    pub fn record(self) -> Option<u16>
        ensures { result ≡ refusal_record self }
    {
        match self {
            Refusal::Record(i) | Refusal::Slots(i) => Some(i),
            _ => None,
        }
    }
}

// Want of memory comes as two types, so there are two of these.
impl From<AllocError> for Refusal {
    ghost from_gives = { λ _ r. r ≡ NoMemory };

    fn from(_e: AllocError) -> Refusal {
        Refusal::NoMemory
    }
}

impl<T: Drop> From<AllocFailed<T>> for Refusal {
    ghost from_gives = { λ _ r. r ≡ NoMemory };

    fn from(_e: AllocFailed<T>) -> Refusal {
        Refusal::NoMemory
    }
}

impl fmt::Display for Refusal {
    fn fmt<W: fmt::Write>(&self, f: &mut fmt::Formatter<W>) -> fmt::Result {
        let record = self.record().unwrap_or(0);
        match self.number() {
            Some(number) => write!(f, "refusal {number}, record {record}"),
            None => write!(f, "no memory"),
        }
    }
}

impl Error for Refusal {}
