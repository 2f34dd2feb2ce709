// The answers as C has them: flat structs of numbers. specs/Answer.antt gives each from the endpoint's or the image's own answer.
ghost use Rattle.std.specs.Prelude.{◌≡◌};
ghost use Rattle.endpoint.specs.Answer.{values_of};
ghost use Rattle.image.specs.Answer.{save_values_of};
ghost use Rattle.niulassenc.specs.Answer.{flat_of, empty_of, addition_of, saving_of};

use endpoint::answer::{ConfigRefusal, Drop, Received};
use image::answer::SaveRefusal;

// As it is: flat structs, a code beside the values and a number for none, are the C interface; fields, order and layout stay.

// No tenant, no binding, no entry.
pub const NONE: u16 = 0xFFFF;

// A receive's answer. `code` is the documents' number. Where it is not 0 there is no tenant and no binding (both are 0xFFFF), and the place is empty. `offset`
// is that of the first offending byte (25 to 29): in the packet, or for STT in the frame. 0 where the answer names no byte.
#[repr(C)]
#[derive(Clone, Copy)]
pub struct Receipt {
    pub start: usize,
    pub length: usize,
    pub tenant: u16,
    pub binding: u16,
    pub code: u8,
    pub in_memory: bool,
    pub offset: u8,
}

// An adding call's answer: the new peer's or binding's number, 0xFFFF where `code` is not 0.
#[repr(C)]
#[derive(Clone, Copy)]
pub struct Addition {
    pub number: u16,
    pub code: u8,
}

// A wrap's answer: the length of the packet that was written, and how many segments its frame has. Both are 0 where `code` is not 0.
#[repr(C)]
#[derive(Clone, Copy)]
pub struct Writing {
    pub length: usize,
    pub segments: u32,
    pub code: u8,
}

// A save's answer: the length of the image; 0 where `code` is not 0.
#[repr(C)]
#[derive(Clone, Copy)]
pub struct Saving {
    pub length: usize,
    pub code: u8,
}

// A refusal and answer 1 carry the same empties.
pub fn empty(code: u8, offset: u8) -> Receipt
    ensures { result ≡ empty_of code offset }
{
    Receipt {
        start: 0,
        length: 0,
        tenant: NONE,
        binding: NONE,
        code: code,
        in_memory: false,
        offset: offset,
    }
}

// The documents' number and values of a receive's answer.
impl From<Result<Received, Drop>> for Receipt {
    ghost from_gives = { λ answer flat. flat ≡ flat_of (values_of answer) };

    fn from(answer: Result<Received, Drop>) -> Receipt {
        match answer {
            Ok(Received::Delivered(t, p)) => Receipt {
                start: p.start,
                length: p.length,
                tenant: t.tenant,
                binding: t.binding,
                code: 0,
                in_memory: p.in_memory,
                offset: 0,
            },
            Ok(Received::Pending) => empty(1, 0),
            Err(d) => empty(d.code(), d.offset()),
        }
    }
}

// Document 01's number of an adding call's answer, and the number that was given.
impl From<Result<u16, ConfigRefusal>> for Addition {
    ghost from_gives = { λ answer flat. flat ≡ addition_of answer };

    #[tactic(auto, using(endpoint::proofs::Laws::Answer::number_code, endpoint::proofs::Laws::Answer::refused_code))]
    fn from(answer: Result<u16, ConfigRefusal>) -> Addition {
        match answer {
            Ok(number) => Addition { number, code: 0 },
            Err(r) => Addition {
                number: NONE,
                code: r.code(),
            },
        }
    }
}

// The number and the length of a save's answer.
impl From<Result<usize, SaveRefusal>> for Saving {
    ghost from_gives = { λ answer flat. flat ≡ saving_of (save_values_of answer) };

    #[tactic(auto, using(image::proofs::Laws::Answer::written_values, image::proofs::Laws::Answer::refused_values))]
    fn from(answer: Result<usize, SaveRefusal>) -> Saving {
        match answer {
            Ok(length) => Saving { length, code: 0 },
            Err(r) => Saving {
                length: 0,
                code: r.code(),
            },
        }
    }
}
