// The documents' number for each answer ("The numbered answers"), and the byte that it names (02 §4), as specs/Answer.antt gives them.
ghost use Rattle.std.specs.Prelude.{◌≡◌};
ghost use Rattle.endpoint.specs.Answer.{drop_of, drop_code, config_code, config_answer_code, values_of, wrap_refusal_code};

use crate::answer::{ConfigRefusal, Drop, Received, WrapRefusal};

impl Drop {
    // The document's number.
    pub fn code(self) -> u8
        ensures { result ≡ drop_code self }
    {
        match self {
            Drop::MemoryTooSmall => 2,
            Drop::Format(r, _) => r.code(),
            Drop::NotForUs => 6,
            Drop::UnknownPeer => 7,
            Drop::NoBinding => 12,
            Drop::Segment(r) => r.code(),
        }
    }

    // The offset of the first offending byte, in the packet or in the STT frame; 0 where the answer names none.
    pub fn offset(self) -> u8
        ensures { result ≡ (drop_of self).offset }
    {
        match self {
            Drop::Format(_, offset) => offset,
            Drop::MemoryTooSmall
            | Drop::NotForUs
            | Drop::UnknownPeer
            | Drop::NoBinding
            | Drop::Segment(_) => 0,
        }
    }
}

pub fn received_code(answer: Result<Received, Drop>) -> u8
    ensures { result ≡ (values_of answer).number }
{
    match answer {
        Ok(Received::Delivered(_, _)) => 0,
        Ok(Received::Pending) => 1,
        Err(d) => d.code(),
    }
}

pub fn received_offset(answer: Result<Received, Drop>) -> u8
    ensures { result ≡ (values_of answer).offset }
{
    match answer {
        Ok(_) => 0,
        Err(d) => d.offset(),
    }
}

impl ConfigRefusal {
    // The document's number.
    pub fn code(self) -> u8
        ensures { result ≡ config_code self }
    {
        match self {
            ConfigRefusal::OutOfRange => 18,
            ConfigRefusal::AlreadyListed => 19,
            ConfigRefusal::Full => 20,
        }
    }
}

// The number of a start's answer, and of an adding call's: 0 where it is no refusal.
pub fn config_answer_code<T>(answer: &Result<T, ConfigRefusal>) -> u8
    ensures { result ≡ config_answer_code answer.now }
{
    match answer {
        Ok(_) => 0,
        Err(r) => r.code(),
    }
}

impl WrapRefusal {
    // The document's number.
    pub fn code(self) -> u8
        ensures { result ≡ wrap_refusal_code self }
    {
        match self {
            WrapRefusal::BadFrame => 13,
            WrapRefusal::OutputTooShort => 21,
            WrapRefusal::ExceedsMtu => 22,
            WrapRefusal::NoBinding | WrapRefusal::NoSegment => 23,
        }
    }
}
