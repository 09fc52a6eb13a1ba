//! The words behind the program's name.

use std::alloc::{AllocError, Global};
use std::env::Args;
use vnfm_base::Text;

/// What the words ask for.
#[derive(Clone, Copy)]
pub enum Asked<'a> {
    /// What the words are.
    Help,
    /// Which version this is.
    Version,
    /// To serve.
    Serve {
        /// At this address, `HOST:PORT`.
        listen: &'a str,
        /// Each job being told as running to so many looks.
        looks: u32,
    },
}

/// The words behind the first.
pub fn words_of(alloc: Global, all: Args) -> Result<Vec<Text>, AllocError> {
    all.skip(1).map(|word| Text::of_string(word)).collect(alloc)
}

/// What these words ask for; none where they aren't pairs of an option and its value, each option at most once, and
/// `--listen` among them.
pub fn read_words(words: &[Text]) -> Option<Asked<'_>> {
    if let [only] = words {
        return match only.as_str() {
            "--help" => Some(Asked::Help),
            "--version" => Some(Asked::Version),
            _ => None,
        };
    }
    let mut listen = None;
    let mut looks = None;
    for pair in words.chunks(2) {
        let [option, value] = pair else {
            return None;
        };
        let value = value.as_str();
        match option.as_str() {
            "--listen" if listen.is_none() => listen = Some(address(value)?),
            "--looks" if looks.is_none() => looks = Some(number(value)?),
            _ => return None,
        }
    }
    Some(Asked::Serve {
        listen: listen?,
        looks: looks.unwrap_or(0),
    })
}

/// A value that is an address: a word that isn't empty and doesn't begin with `-`.
fn address(value: &str) -> Option<&str> {
    if value.is_empty() || value.starts_with('-') {
        None
    } else {
        Some(value)
    }
}

/// A value that is a number of looks: decimal digits alone.
fn number(value: &str) -> Option<u32> {
    if value.bytes().all(|byte| byte.is_ascii_digit()) {
        value.parse().ok()
    } else {
        None
    }
}
