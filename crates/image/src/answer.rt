// What the calls answer. `save_values_of` and `load_code` in specs/Answer.antt give the number and the values of each.
use endpoint::config::Endpoint;

// Why nothing is saved.
#[derive(Clone, Copy, Debug, PartialEq, Eq)]
pub enum SaveRefusal {
    // 18: its start was refused
    NotStarted,
    // 21: the output is shorter than the image
    OutputTooShort,
}

// 24: the bytes are no image that saving gives.
#[derive(Clone, Copy, Debug, PartialEq, Eq)]
pub struct BadImage;

// What a load gives: of a bad image the endpoint of a refused start, every number 0.
// As it is: no Result of an endpoint, since a bad image gives one too: `LoadRule` says of it that every number is 0, and C gets it.
#[derive(Clone, Copy)]
pub struct LoadResult {
    pub endpoint: Endpoint,
    pub answer: Result<(), BadImage>,
}
