//! The words behind the program's name.

use std::alloc::{AllocError, Global};
use std::env::Args;
use vnfm_base::Text;

/// What the words ask for.
#[derive(Clone, Copy)]
pub struct Asked<'a> {
    /// The orchestrator's address, `HOST:PORT`.
    pub first: &'a str,
    /// The element manager's.
    pub second: &'a str,
    /// How often the door is asked for a connection.
    pub rounds: u32,
}

/// The words behind the first.
pub fn words_of(alloc: Global, all: Args) -> Result<Vec<Text>, AllocError> {
    all.skip(1).map(|word| Text::of_string(word)).collect(alloc)
}

/// What these words ask for; none where they aren't two addresses and a number.
pub fn read_words(words: &[Text]) -> Option<Asked<'_>> {
    match words {
        [first, second, rounds] => Some(Asked {
            first: first.as_str(),
            second: second.as_str(),
            rounds: rounds.as_str().parse().ok()?,
        }),
        _ => None,
    }
}
