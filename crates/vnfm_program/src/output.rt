//! The texts that go to standard output and standard error, each in one call.
ghost use Rattle.std.specs.Prelude.{◌≡◌};
ghost use Rattle.vnfm_commands.specs.Ending.{output_of};
ghost use Rattle.vnfm_program.specs.Output.{Explains, Prints, PutsText, Starves};

use program_words::{Page, Reason};
use site_traits::Sink;
use std::alloc::{AllocError, Global};
use vnfm_base::Text;

/// The line of want of memory, and why the run ended so.
const NO_MEMORY: &[u8] = b"no memory\nvnfm: there was no memory\n";

/// What is said where there is no memory for the line that says why.
const NO_LINE: &[u8] = b"vnfm: there was no memory to say why\n";

/// Puts a text in one call, and says whether it was put.
fn put<W: Sink>(out: &mut W, text: &[u8]) -> bool
    ensures { PutsText W.tells text.now result (output_of W.state W.counts out.old)
        (output_of W.state W.counts out.new) }
{
    out.put(text).is_ok()
}

/// Puts a page, and gives the program's status: 0, or 7 where it couldn't be put.
pub fn print<L: Sink>(page: Page, lines: &mut L) -> u8
    ensures { Prints L.tells page result (output_of L.state L.counts lines.old) (output_of L.state L.counts lines.new) }
{
    if put(lines, page.text().as_bytes()) {
        0
    } else {
        7
    }
}

/// Says that there is no memory, and gives the program's status.
pub fn starve<E: Sink>(errors: &mut E) -> u8
    ensures { Starves E.tells result (output_of E.state E.counts errors.old) (output_of E.state E.counts errors.new) }
{
    let _ = put(errors, NO_MEMORY);
    6
}

/// Says why a run with these words ended as it did, where there is something to say: by the reason's line, or, where
/// there is no memory for it, by one that says so.
pub fn explain<E: Sink>(alloc: Global, words: &[Text], reason: Option<Reason>, errors: &mut E)
    ensures { Explains E.tells reason words.now (output_of E.state E.counts errors.old)
        (output_of E.state E.counts errors.new) }
{
    let Some(reason) = reason else {
        return;
    };
    let _ = match reason.line(alloc, words) {
        Ok(line) => put(errors, line.as_bytes()),
        Err(AllocError) => put(errors, NO_LINE),
    };
}
