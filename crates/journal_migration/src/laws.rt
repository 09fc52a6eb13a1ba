//! What holds of every file of format 1, as a contract of a call that does nothing.
ghost use Rattle.journal_migration.specs.Laws.{HasNoBadOldRecord, HasOneOldHistory, IsNoOther, IsNoOtherIfBad};

use event_codec::no_spelling_begins_another;
use journal_core::files_are_one_thing;
use old_journal::old_files_are_one_thing;

/// A file of format 1 has one history, and is one manager's; where it is legal none of its records is bad; and a file with
/// a history, or with a bad record, is neither unfinished nor foreign. So none of the refusals can stand for another.
///
/// Source: own format, docs/JOURNAL.md and docs/EVENTS.md.
pub fn old_files_have_one_history()
    ensures one { HasOneOldHistory }
    ensures good { HasNoBadOldRecord }
    ensures other { IsNoOther }
    ensures bad { IsNoOtherIfBad }
{
    no_spelling_begins_another();
    files_are_one_thing();
    old_files_are_one_thing();
}
