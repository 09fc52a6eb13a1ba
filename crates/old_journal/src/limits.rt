// How the records of a file of format 1 add up.
ghost use Rattle.old_journal.specs.Room.{AddsUp, TakesMore};

/// How the records of a file of format 1 add up. It does nothing, and its contract is the law.
///
/// Source: own format, docs/JOURNAL.md.
pub fn old_records_add_up()
    ensures adds { AddsUp }
    ensures longer { TakesMore }
{}
