// The law that a file is one at most of the things that a load of format 1 may find.
ghost use Rattle.old_journal.specs.Exclusion.{IsWholeOrUnmade, IsWholeOrForeign, IsWholeOrBroken, IsWholeOnce};
ghost use Rattle.old_journal.specs.Exclusion.{ReadsItsRecords, IsHeadedOnce, IsHeadedOrNot, IsForeignOnce, BreaksOnce};

/// That what a load of format 1 finds of a file is one thing at most: so none of its answers can stand for another. It
/// does nothing, and its contract is the law.
///
/// Source: own format, docs/JOURNAL.md.
pub fn old_files_are_one_thing()
    ensures unmade { IsWholeOrUnmade }
    ensures foreign { IsWholeOrForeign }
    ensures broken { IsWholeOrBroken }
    ensures once { IsWholeOnce }
    ensures records { ReadsItsRecords }
    ensures manager { IsHeadedOnce }
    ensures headed { IsHeadedOrNot }
    ensures foreign_once { IsForeignOnce }
    ensures breaks_once { BreaksOnce }
{}
