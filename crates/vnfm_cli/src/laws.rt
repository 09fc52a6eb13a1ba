//! What holds of every run, as contracts of calls that do nothing.
ghost use Rattle.lcm_mouth.specs.World as session;
ghost use Rattle.vnfm_cli.specs.Headline.{SoundJobsMakeSoundPairs};
ghost use Rattle.vnfm_cli.specs.Laws.{AnswersAreWhole, DiskFaultsAreTold, DoorFaultsAreCounted, InitMakes, InitsGoOn};
ghost use Rattle.vnfm_cli.specs.Laws.{LivesGoOn, MadeJournalsBeginSoundly, DeliveriesGoInOrder};
ghost use Rattle.vnfm_cli.specs.Laws.{NoticesTellOfWhatStands};
ghost use Rattle.vnfm_cli.specs.Laws.{OneLineIsPut};
ghost use Rattle.vnfm_commands.specs.Outside.{telling};

use lcm_jobs::{
    changes_stand_at_most_once, completed_stands_once, computes_stand_beside_theirs,
    idle_instances_have_no_job_standing, jobs_are_granted_work, jobs_may_end,
    rolled_back_stands_not,
};
use notify_outbox::notices_go_in_order;
use site_traits::{Clock, Courier, Door, Orchestrator, Sink, Site};

/// Where the count of disk faults is greater behind a run than before it, the run ended with 3.
///
/// Source: own rule, docs/FORMATS.md.
pub fn disk_faults_are_told()
    ensures { DiskFaultsAreTold }
{}

/// The door's counts are those before a run, with one fault more for each call of the door that failed in its course,
/// and no other.
///
/// Source: own rule, docs/FORMATS.md.
pub fn door_faults_are_counted<S: Site, D: Door, O: Orchestrator, C: Courier, K: Clock>()
    ensures { DoorFaultsAreCounted (telling S.tells D.tells O.tells C.tells K.tells) }
{}

/// Over all rounds of a run the courier is called for the dispatches of its rounds, one behind the other, and for
/// nothing else; and the notices of each subscription are posted in their order: each post is of the first that waits,
/// which was neither taken nor refused five times, and before which none is that wasn't.
///
/// Source: SOL 003 5.4.20 (Notification endpoint).
pub fn deliveries_go_in_order<S: Site, D: Door, O: Orchestrator, C: Courier, K: Clock>()
    ensures { DeliveriesGoInOrder (telling S.tells D.tells O.tells C.tells K.tells) }
{
    notices_go_in_order();
}

/// Each notice that a run posts tells of an event that stands in the history with which the deliveries of its round
/// began, and in each that goes on from there. While they are made a stop leaves no other, by
/// `notify_outbox::notices_tell_of_what_stands`: so none tells of what a stop takes back.
///
/// Source: own rule.
pub fn notices_tell_of_what_stands<S: Site, D: Door, O: Orchestrator, C: Courier, K: Clock>()
    ensures { NoticesTellOfWhatStands (telling S.tells D.tells O.tells C.tells K.tells) }
{
    notices_go_in_order();
}

/// A run puts one line, whatever its words.
///
/// Source: own rule, docs/FORMATS.md.
pub fn one_line_is_put<W: Sink>()
    ensures { OneLineIsPut W.tells }
{}

/// Where `init` ends with 0 or 7, the file is a made one of its manager, and nothing is pending.
///
/// Source: own rule, docs/JOURNAL.md.
pub fn init_makes_the_journal<S: Site, W: Sink>()
    ensures { InitMakes S.tells W.tells S.state }
{}

/// Where no call of the door failed, a connection got the replies to its requests, in order, and what is told at its
/// end, and nothing else.
///
/// Source: RFC 9112 9.3.
pub fn answers_are_whole<S: Site, D: Door, K: Clock>()
    ensures { AnswersAreWhole (session.telling S.tells D.tells K.tells) }
{}

/// A file with a history, and jobs that are sound with it, are a sound pair: each change stands at most once, as its
/// occurrence says, and each job is granted work.
///
/// Source: SOL 003 5.6.2, 9.4.2 (Grants) and 5.5.2.2 (Type: VnfInstance, instantiationState).
pub fn sound_jobs_make_sound_pairs()
    ensures { SoundJobsMakeSoundPairs }
{
    changes_stand_at_most_once();
    completed_stands_once();
    rolled_back_stands_not();
    jobs_are_granted_work();
    idle_instances_have_no_job_standing();
    computes_stand_beside_theirs();
}

/// A life goes on from whatever a stop left of the one before it, with all that it had and all that it had acknowledged
/// by then, so that the headline of `run` holds of any number of lives.
///
/// Source: own rule.
pub fn lives_go_on<S: Site>()
    ensures { LivesGoOn S.state }
{
    jobs_may_end();
}

/// A life begins with `init`, whatever a stop left of it: what is there is a fresh start of `init` again, or a sound
/// beginning without an event.
///
/// Source: own rule.
pub fn inits_go_on<S: Site>()
    ensures { InitsGoOn S.state }
{}

/// A site on which a journal was just made, and no job, is a sound beginning.
///
/// Source: own rule.
pub fn made_journals_begin_soundly<S: Site>()
    ensures { MadeJournalsBeginSoundly S.state }
{}
