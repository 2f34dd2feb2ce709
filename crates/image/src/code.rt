// The number of each refusal, as specs/Answer.antt gives it.
ghost use Rattle.std.specs.Prelude.{◌≡◌, Err};
ghost use Rattle.image.specs.Answer.{load_code, save_refusal_code};

use crate::answer::{BadImage, SaveRefusal};

impl SaveRefusal {
    #[tactic(auto, unfolding(crate::specs::Answer::save_refusal_code))]
    pub fn code(self) -> u8
        ensures { result ≡ save_refusal_code self }
    {
        match self {
            SaveRefusal::NotStarted => 18,
            SaveRefusal::OutputTooShort => 21,
        }
    }
}

impl BadImage {
    #[tactic(auto, unfolding(crate::specs::Answer::load_code))]
    pub fn code(self) -> u8
        ensures { result ≡ load_code (Err self) }
    {
        24
    }
}

// The number of a load's answer: 0 where it is no refusal.
#[tactic(auto, using(crate::proofs::Laws::Answer::loaded_code), unfolding(crate::specs::Answer::load_code))]
pub fn load_code(answer: Result<(), BadImage>) -> u8
    ensures { result ≡ load_code answer }
{
    match answer {
        Ok(()) => 0,
        Err(r) => r.code(),
    }
}
