//! What holds of every reply, and how far requests fill the journal, as the contracts of calls that do nothing.
ghost use Rattle.std.specs.Prelude.{◌≡◌};
ghost use Rattle.lcm_api.specs.Laws.{AreLastAsAsked, RolesSeeTheirOwn};

use crate::record::MAX_REQUESTED;

/// The connection ends with the reply to a request exactly where it ends with the request.
///
/// Source: RFC 9112 9.6.
pub fn a_reply_is_last_where_its_request_is()
    ensures { AreLastAsAsked }
{}

/// Each role sees its own subscriptions alone: what a GET of them, or of one of them, comes to is told by the live
/// subscriptions of the asking role.
///
/// Source: own rule over SOL 003 5.4.18.3.2 and 5.4.19.3.2 (GET).
pub fn roles_see_their_own()
    ensures { RolesSeeTheirOwn }
{}

/// That requests are taken up to this byte of the journal. It does nothing, and its contract is the law.
///
/// Source: own rule, docs/FORMATS.md.
pub fn limits_are_fixed()
    ensures { MAX_REQUESTED ≡ 201326592 }
{}
