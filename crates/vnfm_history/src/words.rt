//! The words behind the program's name.

use history_report::{Form, Wish};
use std::alloc::{AllocError, Global};
use std::env::Args;
use vnfm_base::Text;

/// What the words ask for.
pub enum Asked<'a> {
    /// What the words are.
    Help,
    /// Which version this is.
    Version,
    /// A report of a journal.
    Report(Request<'a>),
}

/// A report of a journal.
#[derive(Clone, Copy)]
pub struct Request<'a> {
    /// The path of its file.
    pub journal: &'a str,
    /// The identifier of the instance to tell of.
    pub instance: Option<&'a str>,
    /// The identifier of the occurrence to tell of.
    pub occurrence: Option<&'a str>,
    /// In which form.
    pub form: Form,
}

impl<'a> Request<'a> {
    /// What is wished for, as a text of its own.
    pub fn wish(self, alloc: Global) -> Result<Wish, AllocError> {
        Ok(Wish {
            instance: text_where(alloc, self.instance)?,
            occurrence: text_where(alloc, self.occurrence)?,
            form: self.form,
        })
    }
}

/// A text of its own, where there is one.
fn text_where(alloc: Global, text: Option<&str>) -> Result<Option<Text>, AllocError> {
    match text {
        Some(text) => Ok(Some(Text::of_string(String::from_str(alloc, text)?))),
        None => Ok(None),
    }
}

/// The words behind the first.
pub fn words_of(alloc: Global, all: Args) -> Result<Vec<Text>, AllocError> {
    all.skip(1).map(|word| Text::of_string(word)).collect(alloc)
}

/// What these words ask for; none where they aren't `--journal` and its value with the other options, in any order, each
/// at most once.
pub fn read_words(words: &[Text]) -> Option<Asked<'_>> {
    if let [only] = words {
        match only.as_str() {
            "--help" => return Some(Asked::Help),
            "--version" => return Some(Asked::Version),
            _ => {}
        }
    }
    Some(Asked::Report(read_request(words)?))
}

/// The options that stand among the words, each with its value.
#[derive(Clone, Copy)]
struct Options<'a> {
    journal: Option<&'a str>,
    instance: Option<&'a str>,
    occurrence: Option<&'a str>,
    html: bool,
}

impl<'a> Options<'a> {
    /// These with one more; none where it isn't known, stands already, or has no value: a word that doesn't begin with `-`.
    fn with(self, name: &str, value: &'a str) -> Option<Options<'a>> {
        if value.starts_with('-') {
            return None;
        }
        match name {
            "--journal" if self.journal.is_none() => Some(Options {
                journal: Some(value),
                ..self
            }),
            "--instance" if self.instance.is_none() => Some(Options {
                instance: Some(value),
                ..self
            }),
            "--occurrence" if self.occurrence.is_none() => Some(Options {
                occurrence: Some(value),
                ..self
            }),
            _ => None,
        }
    }

    /// These with `--html`, which has no value; none where it stands already.
    fn with_html(self) -> Option<Options<'a>> {
        if self.html {
            return None;
        }
        Some(Options { html: true, ..self })
    }
}

/// The report that the words ask for.
fn read_request(words: &[Text]) -> Option<Request<'_>> {
    let mut options = Options {
        journal: None,
        instance: None,
        occurrence: None,
        html: false,
    };
    let mut name = None;
    for word in words {
        match name {
            Some(before) => {
                options = options.with(before, word.as_str())?;
                name = None;
            }
            None if word.as_str() == "--html" => options = options.with_html()?,
            None => name = Some(word.as_str()),
        }
    }
    if name.is_some() {
        return None;
    }
    Some(Request {
        journal: options.journal?,
        instance: options.instance,
        occurrence: options.occurrence,
        form: if options.html {
            Form::Page
        } else {
            Form::Lines
        },
    })
}
