//! What notices say, of some that were written out.
ghost use Rattle.notice_views.specs.Worked.{AreWorkedBodies};

use json_views::moments_have_one_text;

/// The bodies of two worked notices are those that were written out. It does nothing, and its contract is the law.
///
/// Source: SOL 003 5.5.2.17 (VnfLcmOperationOccurrenceNotification) and 5.5.2.18 (VnfIdentifierCreationNotification).
pub fn worked_notices_have_their_bodies()
    ensures { AreWorkedBodies }
{
    moments_have_one_text();
}
