// The limits of a journal's file, how its records add up, and which faults its calls count.
ghost use Rattle.std.specs.Prelude.{◌≡◌};
ghost use Rattle.journal_core.specs.Asking.{AppendsCount, CreatesCount};
ghost use Rattle.journal_core.specs.Room.{AddsUp, HasRoomBefore, TakesMore};

use crate::back::BACK;
use crate::journal::ROOM;
use crate::marks::{APART, MARKS};
use journal_records::{BLOCK, MAX_BATCH, MAX_FILE, MAX_RECORD};

/// That the limits of a journal's file are these. It does nothing, and its contract is the law.
///
/// Source: own format, docs/JOURNAL.md.
pub fn limits_are_fixed()
    ensures file { MAX_FILE ≡ 268435456 }
    ensures record { MAX_RECORD ≡ 65536 }
    ensures batch { MAX_BATCH ≡ 131072 }
    ensures block { BLOCK ≡ 65536 }
    ensures back { BACK ≡ 8192 }
    ensures room { ROOM ≡ 65545 }
    ensures marks { MARKS ≡ 65536 }
    ensures apart { APART ≡ 4096 }
{}

/// How the records of a file add up. It does nothing, and its contract is the law.
///
/// Source: own format, docs/JOURNAL.md.
pub fn records_add_up()
    ensures adds { AddsUp }
    ensures room { HasRoomBefore }
    ensures longer { TakesMore }
{}

/// Which faults the calls that write count. It does nothing, and its contract is the law.
///
/// Source: own rule.
pub fn faults_are_counted()
    ensures append { AppendsCount }
    ensures create { CreatesCount }
{}
