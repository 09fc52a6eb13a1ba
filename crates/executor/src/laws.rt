//! What holds of every journal's file, and how many attempts may be open, as contracts of calls that do nothing.
ghost use Rattle.std.specs.Prelude.{◌≡◌};
ghost use Rattle.executor.specs.Chain.{ChainsJoin, StandingStays};
ghost use Rattle.executor.specs.Laws.{HasNoBadRecord, HasOneBadRecord, HasOneHistory};
ghost use Rattle.lcm_model.specs.Work.{window};
ghost use Rattle.site_traits.specs.Site.{KeepsJobs};
ghost use Rattle.executor.specs.Work.{Follows, Idles, Joins, LeadsOn, LeavesJobs, Stays, WorksAreWithJobs};
ghost use Rattle.executor.specs.Work.{WorksWithJobsJoin, WorksWithJobsLeadOn};

use event_codec::no_spelling_begins_another;
use journal_core::files_are_one_thing;
use lcm_jobs::jobs_may_end;
use site_traits::Site;

/// Attempts of an occurrence that may be open at one time.
///
/// Source: own rule, docs/MODEL.md.
pub const WINDOW: usize = lcm_tables::WINDOW;

/// That four attempts of an occurrence may be open at one time, which is the window of the model. It does nothing, and
/// its contract is the law.
///
/// Source: own rule, docs/MODEL.md.
pub fn window_is_fixed()
    ensures model { WINDOW ≡ window }
    ensures number { WINDOW ≡ 4 }
{}

/// A file has one history, and is one manager's.
///
/// Source: own format, docs/JOURNAL.md and docs/EVENTS.md.
pub fn a_file_has_one_history()
    ensures { HasOneHistory }
{
    no_spelling_begins_another();
    files_are_one_thing();
}

/// Where a file's history is legal, none of its records is bad.
///
/// Source: own rule.
pub fn a_legal_history_has_no_bad_record()
    ensures { HasNoBadRecord }
{
    no_spelling_begins_another();
    files_are_one_thing();
}

/// A file has one bad record at most, so that a refusal that names one names the first.
///
/// Source: own rule.
pub fn a_bad_record_is_the_only_one()
    ensures { HasOneBadRecord }
{
    no_spelling_begins_another();
    files_are_one_thing();
}

/// How works add up: those in a row are one, and whatever came of the last of them came of them all; nothing is a work;
/// behind one in which the disk didn't fail the manager is ready for more; what it stands for is in the file, whatever
/// a stop leaves; and the jobs are left alone by an opening, by work behind it, and where nothing is done.
///
/// Source: own rule.
pub fn works_add_up<S: Site>()
    ensures joins { (a b c : S) → Joins S.tells (S.state a) (S.state b) (S.state c) }
    ensures idles { (s : S) → Idles S.tells (S.state s) }
    ensures leads { (a b : S) → LeadsOn S.tells (S.state a) (S.state b) }
    ensures stays { (s : S) → Stays (S.state s) }
    ensures jobs { (a b c : S) → LeavesJobs S.tells (S.state a) (S.state b) (S.state c) }
    ensures idle_jobs { (s : S) → KeepsJobs (S.state s) (S.state s) }
{}

/// How works add up in which jobs may have been begun, looked at or aborted: those in a row are one, and whatever came
/// of the last of them came of them all; work that leaves the jobs alone is such work; behind one in which the disk
/// didn't fail the manager is ready for more; and it follows the opening of a journal. From sound jobs on, each pair
/// that a stop leaves has sound ones.
///
/// Source: own rule.
pub fn works_with_jobs_add_up<S: Site>()
    ensures joins { (a b c : S) → WorksWithJobsJoin S.tells (S.state a) (S.state b) (S.state c) }
    ensures works { (a b : S) → WorksAreWithJobs S.tells (S.state a) (S.state b) }
    ensures leads { (a b : S) → WorksWithJobsLeadOn S.tells (S.state a) (S.state b) }
    ensures follows { (a b c : S) → Follows S.tells (S.state a) (S.state b) (S.state c) }
{
    jobs_may_end();
}

/// What was told of stays: at each moment since a stop leaves the history that it tells of, or more, through all work
/// behind it. The chain of two works in a row is that of both, and what stands behind work may be told of.
///
/// Source: own rule.
pub fn what_was_told_of_stays<S: Site>()
    ensures joins { (a b c : S) → ChainsJoin S.tells (S.state a) (S.state b) (S.state c) }
    ensures stands { (a b : S) → StandingStays S.tells (S.state a) (S.state b) }
{}
