//! What the notice of an event tells, by the tables: nobody asks a list of events.

ghost use Rattle.std.specs.Prelude.{◌≡◌, ◌<◌, IfSome, List, None, Some, length, option_map, true, ℕ};
ghost use Rattle.lcm_events.specs.declared.events.Event.{Event};
ghost use Rattle.lcm_model.specs.Allowed.{IsAllowed, IsLegal};
ghost use Rattle.lcm_model.specs.Lives.{is_live};
ghost use Rattle.lcm_model.specs.Notices.{facts_of};
ghost use Rattle.lcm_tables.specs.Notices.{instance_facts};
ghost use Rattle.lcm_tables.specs.Tables.{AreTablesOf};
ghost use Rattle.subscription_filter.specs.Facts.{facts_in};
ghost use Rattle.vnfm_base.specs.Ident.{IsIdentNumber};

use crate::tables::Tables;
use lcm_events::{EventKind, NoticeKind, OpKind, OpState};
use lcm_model::op_kind;
use subscription_filter::NoticeFacts;
use vnfm_base::Name;

/// Numbers that an identifier can't carry begin here.
const NUMBERS: u64 = 1 << 62;

/// The notice, where an identifier can carry the number of its instance.
fn numbered(notice: NoticeFacts) -> Option<NoticeFacts>
    ensures value { IsIdentNumber notice.instance → result ≡ Some notice }
    ensures number { IfSome result (λ n. IsIdentNumber n.instance) }
    ensures manager { IfSome result (λ n. n.manager ≡ notice.manager) }
{
    if 1 <= notice.instance && notice.instance < NUMBERS {
        Some(notice)
    } else {
        None
    }
}

impl Tables {
    /// The notice of this kind of a live instance, with the operation and the state that it tells of.
    fn notice_of_instance(
        &self,
        which: NoticeKind,
        instance: u64,
        op: Option<OpKind>,
        state: Option<OpState>,
    ) -> Option<NoticeFacts>
        ensures facts { (m : ℕ) (H : List Event) → IsLegal m H → AreTablesOf m self.now H
            → length H < 4611686018427387903 → is_live H instance ≡ true
            → option_map facts_in result ≡ instance_facts which op state H instance }
        ensures number { IfSome result (λ n. IsIdentNumber n.instance) }
        ensures manager { IfSome result (λ n. n.manager ≡ self.now.manager) }
    {
        match self.instances.instance(instance) {
            Some(row) => numbered(NoticeFacts {
                which,
                vnfd: row.vnfd,
                instance,
                name: row.name,
                op,
                state,
                manager: self.manager,
            }),
            None => None,
        }
    }

    /// The notice of the creation of an instance.
    fn notice_of_creation(
        &self,
        instance: u64,
        vnfd: Name,
        name: Option<Name>,
    ) -> Option<NoticeFacts>
        ensures value { IsIdentNumber instance → result ≡ Some
            (record {
              which = NoticeKind.Creation;
              vnfd = vnfd;
              instance = instance;
              name = name;
              op = None;
              state =
                  None;
              manager = self.now.manager;
            }) }
        ensures number { IfSome result (λ n. IsIdentNumber n.instance) }
        ensures manager { IfSome result (λ n. n.manager ≡ self.now.manager) }
    {
        numbered(NoticeFacts {
            which: NoticeKind::Creation,
            vnfd,
            instance,
            name,
            op: None,
            state: None,
            manager: self.manager,
        })
    }

    /// The notice of a move of an occurrence.
    fn notice_of_move(&self, occ: u64, to: OpState) -> Option<NoticeFacts>
        ensures facts { (m : ℕ) (H : List Event) → IsLegal m H → AreTablesOf m self.now H
            → length H < 4611686018427387903 → IsAllowed m H (EventKind.Moved occ to)
            → option_map facts_in result ≡ facts_of H (EventKind.Moved occ to) }
        ensures number { IfSome result (λ n. IsIdentNumber n.instance) }
        ensures manager { IfSome result (λ n. n.manager ≡ self.now.manager) }
    {
        match self.occurrences.occurrence(occ) {
            Some(row) => self.notice_of_instance(
                NoticeKind::Occurrence,
                row.instance,
                Some(row.ask.kind()),
                Some(to),
            ),
            None => None,
        }
    }

    /// What the notice of an event tells that may follow, where it makes one.
    ///
    /// Source: SOL 003 5.5.2.17 to 5.5.2.19 (the notifications).
    pub fn notice_of(&self, kind: &EventKind) -> Option<NoticeFacts>
        ensures facts { (m : ℕ) (H : List Event) → IsLegal m H → AreTablesOf m self.now H
            → length H < 4611686018427387903 → IsAllowed m H kind.now
            → option_map facts_in result ≡ facts_of H kind.now }
        ensures number { IfSome result (λ n. IsIdentNumber n.instance) }
        ensures manager { IfSome result (λ n. n.manager ≡ self.now.manager) }
    {
        match kind {
            EventKind::Created {
                instance,
                vnfd,
                name,
                ..
            } => self.notice_of_creation(*instance, *vnfd, *name),
            EventKind::Deleted { instance } => {
                self.notice_of_instance(NoticeKind::Deletion, *instance, None, None)
            }
            EventKind::Asked(operation) => self.notice_of_instance(
                NoticeKind::Occurrence,
                operation.instance,
                Some(op_kind(&operation.ask)),
                Some(OpState::Starting),
            ),
            EventKind::Moved { occ, to } => self.notice_of_move(*occ, *to),
            _ => None,
        }
    }
}
