//! The top call: one command over the objects that it is handed.
ghost use Rattle.std.specs.Prelude.{◌≡◌};
ghost use Rattle.command_line.specs.declared.options.Command.TheVariants.{Migrate, Onboard, Trial};
ghost use Rattle.vnfm_cli.specs.Migration.{MigratesAs};
ghost use Rattle.vnfm_cli.specs.Promises.{Promises, ground_of};
ghost use Rattle.vnfm_cli.specs.Trial.{TriesAs};
ghost use Rattle.vnfm_commands.specs.Ending.{output_of};
ghost use Rattle.vnfm_commands.specs.Moving.{spare_of};
ghost use Rattle.vnfm_commands.specs.Outside.{outside, telling};
ghost use Rattle.vnfm_commands.specs.Words.{AreServing, AreWordsOf};

use crate::laws::sound_jobs_make_sound_pairs;
use executor::{a_file_has_one_history, a_legal_history_has_no_bad_record};
use journal_core::files_are_one_thing;
use journal_migration::old_files_have_one_history;
use lcm_jobs::jobs_may_end;
use lcm_mouth::Mouth;
use site_traits::{Clock, Courier, Door, Orchestrator, Sink, Site};
use std::alloc::Global;
use vnfm_base::Text;
use vnfm_commands::{finish, obey};

/// Obeys the words, and gives the program's status. One line is put to `out` but for a failed put.
///
/// The words are a command, behind which its options stand in any order:
/// - `init --journal PATH --manager N` makes the journal of manager N.
/// - `onboard --journal PATH` opens the journal, reads the door's first connection, then the clock, and records the
///   descriptor.
/// - `once --journal PATH` opens the journal and makes as many rounds as `--rounds` says, or one: in each it serves one
///   connection of the door, where one comes, whose requests are answered one by one for the role of `--role`, whatever
///   the door says of it, reads the clock once for each request and once for the round, and makes a turn: one act, in
///   the order of their numbers, for each active occurrence: in STARTING, PROCESSING or ROLLING_BACK, under a cancel or
///   not. An act asks the orchestrator for a grant or polls it, begins the job of an attempt behind its intent, which
///   makes a change or undoes it, looks at a job, under a FORCEFUL cancel once it was asked to abort, or moves the
///   occurrence on by what was answered. Then, at the moment of the turn, it makes one delivery, in the order of their
///   numbers, for each live subscription: the courier posts the first notice that waits, and what became of it is
///   recorded. Rounds go on where nobody comes any more.
/// - `serve --journal PATH --listen ADDR --em-listen ADDR` is `once` but for its rounds, which are 4,294,967,295 where
///   `--rounds` doesn't say, and for the role of a connection, which is the one that the door says.
/// - `check --journal PATH` opens the journal and counts its records, the instances and the subscriptions that aren't
///   deleted, and the operations that go on. It changes nothing, and asks neither the door nor the clock.
/// - `migrate --journal PATH --to PATH` reads the journal of format 1 in the site's file, which stays as it is, and makes
///   the spare's file of it: a journal of the present format with the same manager and the same events. It asks neither
///   the door nor the clock. A stop within leaves an unfinished file unfinished, or the journal whole; every other
///   command leaves the spare alone.
/// - `trial --start N --count N` makes the trial of these numbers in memory (`lcm_trial::make_trial`), and calls nothing
///   that it is handed but `out`, to which it puts three lines.
///
/// From a sound beginning a stop leaves, whenever it comes, a journal with all that it had and jobs that are sound with
/// it: each change stands at most once, and none ungranted. From the moment at which a reply was told on, whenever a
/// stop comes, that journal has all that was done up to the reply.
///
/// The orchestrator, the infrastructure and the courier are asked by `once` and `serve` alone, and `--orchestrator`,
/// `--vim`, `--listen` and `--em-listen` are used by nothing.
/// Statuses: 0 the command did its work; 2 the words are no command; 3 exactly where a disk call failed, in an act or a
/// delivery too, after which no other is made, and of `trial` where its journal passes its room; 4 exactly where waiting for a connection failed, or a read of a
/// descriptor, so never after `init`, `check`, `migrate` or `trial`; 5 the file is no journal, of `migrate` none of format 1; 6 there is no memory; 7 the line of status 0
/// couldn't be put; 8 a record is bad, which is found out at the opening where the site tells its content, and else
/// perhaps where a delivery reads it back; 9 the journal has no room for the descriptor, or for an event of an act or a
/// delivery, or the migrated one would pass a file's limit; 10 the descriptor is refused; 11 the file isn't unfinished
/// for the manager of `init`, or the spare's for that of the journal that is to be migrated. After 2, 5, 10, 11, and 8 at
/// the opening, the file is as it was, and so is the spare's; after 4, 6, 9, and 8 in a delivery, too, but that what `once`
/// acknowledged, and what its acts and deliveries recorded, stand. A call of the orchestrator, the infrastructure or the
/// courier that failed gives no status: a later turn or delivery goes on from it. Source: SOL 003 clause 5; words,
/// statuses and lines are an own rule, docs/FORMATS.md.
pub fn run<S: Site, T: Site, D: Door, O: Orchestrator, C: Courier, K: Clock, W: Sink>(
    alloc: Global,
    words: &[Text],
    site: &mut S,
    spare: &mut T,
    mouth: &mut Mouth<D>,
    orchestrator: &mut O,
    courier: &mut C,
    clock: &mut K,
    out: &mut W,
) -> u8
    ensures promises { Promises (telling S.tells D.tells O.tells C.tells K.tells) W.tells words.now result
        (ground_of (outside (S.state site.old) (S.counts site.old) mouth.old (O.state orchestrator.old)
        (O.counts orchestrator.old) (C.state courier.old) (C.counts courier.old) (K.state clock.old))
        (output_of W.state W.counts out.old))
        (ground_of (outside (S.state site.new) (S.counts site.new) mouth.new (O.state orchestrator.new)
        (O.counts orchestrator.new) (C.state courier.new) (C.counts courier.new) (K.state clock.new))
        (output_of W.state W.counts out.new)) }
    ensures spared { ¬ (AreWordsOf Migrate words.now) → spare.new ≡ spare.old }
    ensures migration { MigratesAs (telling S.tells D.tells O.tells C.tells K.tells) T.tells W.tells words.now result
        (ground_of (outside (S.state site.old) (S.counts site.old) mouth.old (O.state orchestrator.old)
        (O.counts orchestrator.old) (C.state courier.old) (C.counts courier.old) (K.state clock.old))
        (output_of W.state W.counts out.old))
        (ground_of (outside (S.state site.new) (S.counts site.new) mouth.new (O.state orchestrator.new)
        (O.counts orchestrator.new) (C.state courier.new) (C.counts courier.new) (K.state clock.new))
        (output_of W.state W.counts out.new))
        (spare_of (T.state spare.old) (T.counts spare.old)) (spare_of (T.state spare.new) (T.counts spare.new)) }
    ensures trial { TriesAs W.tells words.now result (output_of W.state W.counts out.old)
        (output_of W.state W.counts out.new) }
    ensures uncalled { AreWordsOf Trial words.now → site.new ≡ site.old }
    ensures unasked { ¬ (AreServing words.now) → orchestrator.new ≡ orchestrator.old }
    ensures unposted { ¬ (AreServing words.now) → courier.new ≡ courier.old }
    ensures unheard { ¬ (AreWordsOf Onboard words.now) → ¬ (AreServing words.now) → mouth.new ≡ mouth.old }
    ensures untimed { ¬ (AreWordsOf Onboard words.now) → ¬ (AreServing words.now) → clock.new ≡ clock.old }
{
    files_are_one_thing();
    a_legal_history_has_no_bad_record();
    a_file_has_one_history();
    jobs_may_end();
    sound_jobs_make_sound_pairs();
    old_files_have_one_history();
    let ending = obey(
        alloc,
        words,
        site,
        spare,
        mouth,
        orchestrator,
        courier,
        clock,
    );
    finish(ending, out)
}
