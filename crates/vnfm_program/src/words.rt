//! The words of the command line.
ghost use Rattle.std.specs.Prelude.{◌≡◌, IfErr, IfOk, Err, false, true};
ghost use Rattle.std.specs.IoError.{error_kind};
ghost use Rattle.command_line.specs.Words.{settings_of};
ghost use Rattle.vnfm_program.specs.Words.{are_legible, words_in};

use std::alloc::{AllocError, Global};
use std::env::Args;
use std::io;
use std::io::ErrorKind;
use vnfm_base::Text;
use vnfm_cli::{Settings, SettingsFault, settings};

/// Why there are no words.
#[derive(Clone, Copy)]
pub enum WordsFault {
    /// The arguments can't be read, as where one isn't UTF-8.
    Illegible,
    /// There is no memory for them.
    Memory,
}

impl From<AllocError> for WordsFault {
    ghost use Rattle.vnfm_program.specs.declared.words.WordsFault.TheVariants.{Memory};

    ghost from_gives = { λ _ fault. fault ≡ Memory };

    fn from(_: AllocError) -> WordsFault {
        WordsFault::Memory
    }
}

/// The words behind the program's name.
///
/// Refusals: `Illegible`, exactly where the arguments can't be had though there is memory; `Memory`.
pub fn words_of(alloc: Global, arguments: io::Result<Args>) -> Result<Vec<Text>, WordsFault>
    ensures words { IfOk result (λ words. words.items ≡ words_in arguments) }
    ensures legible { IfOk result (λ words. are_legible arguments ≡ true) }
    ensures illegible { result ≡ Err WordsFault.Illegible → are_legible arguments ≡ false }
    ensures memory { IfErr arguments (λ fault. error_kind fault ≡ ErrorKind.OutOfMemory
        → result ≡ Err WordsFault.Memory) }
{
    match arguments {
        Ok(all) => Ok(behind_first(alloc, all)?),
        Err(fault) if fault.kind() == ErrorKind::OutOfMemory => Err(WordsFault::Memory),
        Err(_) => Err(WordsFault::Illegible),
    }
}

/// The words behind the first.
fn behind_first(alloc: Global, all: Args) -> Result<Vec<Text>, AllocError>
    ensures { IfOk result (λ words. words.items ≡ words_in (Ok all)) }
{
    all.skip(1).map(|word| Text::of_string(word)).collect(alloc)
}

/// What the words of the command line set, which is nothing where they are no command. It is asked before the program
/// is started, so that what it works with is made for the addresses that the words name.
///
/// `arguments` are those of `env::args`. Its one refusal is want of memory.
pub fn settings_in(
    alloc: Global,
    arguments: io::Result<Args>,
) -> Result<Option<Settings>, AllocError>
    ensures { IfOk result (λ set. set ≡ settings_of (words_in arguments)) }
{
    let words = match words_of(alloc, arguments) {
        Ok(words) => words,
        Err(WordsFault::Illegible) => return Ok(None),
        Err(WordsFault::Memory) => return Err(AllocError),
    };
    match settings(alloc, &words) {
        Ok(settings) => Ok(Some(settings)),
        Err(SettingsFault::Usage) => Ok(None),
        Err(SettingsFault::Memory) => Err(AllocError),
    }
}
