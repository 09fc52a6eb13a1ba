//! What a notice tells, and what filters are asked by.

ghost use Rattle.std.specs.Prelude.{◌≡◌};
ghost use Rattle.lcm_model.specs.Notices.{instance_text};
ghost use Rattle.vnfm_base.specs.Ident.{IsIdentNumber};

use lcm_events::{NoticeKind, OpKind, OpState};
use std::marker::Model;
use vnfm_base::{Kind, Name, ident, ident_text};

/// What a filter asks of a notice.
///
/// Source: SOL 003 5.5.3 (LifecycleChangeNotificationsFilter).
#[derive(Clone, Copy)]
pub struct NoticeFacts {
    /// The kind of the notice.
    pub which: NoticeKind,
    /// The descriptor's identifier.
    pub vnfd: Name,
    /// The number of the instance.
    pub instance: u64,
    /// The instance's name.
    pub name: Option<Name>,
    /// The operation; none for a creation and a deletion.
    pub op: Option<OpKind>,
    /// The operation's state; none for a creation and a deletion.
    pub state: Option<OpState>,
    /// The number of the manager, which is in the identifier of the instance.
    pub manager: u32,
}

/// A notice that filters are asked about. The text of its instance's identifier is made once, for all of them.
///
/// A contract sees what it tells.
#[derive(Drop)]
pub struct AskedNotice {
    facts: NoticeFacts,
    instance: [u8; 36],
}

impl Model for AskedNotice {
    ghost use Rattle.subscription_filter.specs.Asked.{IsText};
    ghost use Rattle.subscription_filter.specs.declared.facts.NoticeFacts.{NoticeFacts};

    ghost Value = { NoticeFacts };

    ghost view = { λ a. a.facts };

    ghost invariant = { IsText };
}

impl AskedNotice {
    /// The notice that tells this.
    ///
    /// Condition: the instance's number is from 1 to 2^62 - 1.
    /// Source: own rule.
    pub fn of(facts: &NoticeFacts) -> AskedNotice
        requires { IsIdentNumber facts.now.instance }
        ensures { result ≡ facts.now }
    {
        AskedNotice {
            facts: *facts,
            instance: ident_text(&ident(facts.manager, Kind::Instance, facts.instance)),
        }
    }

    /// What it tells.
    pub(crate) fn facts(&self) -> &NoticeFacts
        ensures { result.now ≡ self.now }
    {
        &self.facts
    }

    /// The text of its instance's identifier.
    pub(crate) fn instance(&self) -> &[u8]
        ensures { result.now ≡ instance_text self.now.manager self.now.instance }
    {
        &self.instance
    }
}
