//! Limits of other crates, as numbers, so that none of them changes unseen. Each law is the contract of a call that
//! does nothing; it stands here, over these crates, and what is built on them need not be proved again for it.
#![tactic(auto)]

ghost use Rattle.std.specs.Prelude.{◌≡◌};
ghost use Rattle.site_traits.specs.declared.log.TheConstants.{CALLS, BYTES};
ghost use Rattle.site_traits.specs.declared.heard.TheConstants.{HEARD_MAX};
ghost use Rattle.vnfm_base.specs.declared.name.TheConstants.{NAME_MAX};
ghost use Rattle.vnfm_base.specs.declared.line.TheConstants.{LINE_MAX};
ghost use Rattle.vnfm_base.specs.declared.moment.TheConstants.{MAX_MOMENT};
ghost use Rattle.lcm_model.specs.declared.limits.TheConstants.{MAX_DESCRIPTORS, MAX_INSTANCES, MAX_SUBSCRIPTIONS};
ghost use Rattle.vnfm_base.specs.declared.limits.TheConstants.{MAX_RECORD};
ghost use Rattle.json_views.specs.declared.occurrences.TheConstants.{MAX_LISTED};

/// The limits of vnfm_base: a name has 255 bytes at most, a line 2,048, and the last moment is
/// 9999-12-31T23:59:59.999Z.
///
/// Source: own rules; RFC 3339 for the moment.
pub fn limits_of_words()
    ensures name { NAME_MAX ≡ 255 }
    ensures line { LINE_MAX ≡ 2048 }
    ensures moment { MAX_MOMENT ≡ 253402300799999 }
{}

/// The limits of lcm_model: 256 descriptors are onboarded at most, 1,000 instances live at one time, and 100
/// subscriptions of one role.
///
/// Source: own rules.
pub fn limits_of_histories()
    ensures descriptors { MAX_DESCRIPTORS ≡ 256 }
    ensures instances { MAX_INSTANCES ≡ 1000 }
    ensures subscriptions { MAX_SUBSCRIPTIONS ≡ 100 }
{}

/// The limit of event_codec: an event's spelling has 65,536 bytes at most.
///
/// Source: own format, docs/EVENTS.md.
pub fn limits_of_spellings()
    ensures record { MAX_RECORD ≡ 65536 }
{}

/// The limits of site_traits: an answer that is heard has a body of 1,048,576 bytes at most, and an object in memory
/// has room for 1,048,576 calls and for 67,108,864 bytes.
///
/// Source: own rule.
pub fn limits_of_objects()
    ensures heard { HEARD_MAX ≡ 1048576 }
    ensures calls { CALLS ≡ 1048576 }
    ensures bytes { BYTES ≡ 67108864 }
{}

/// The limit of json_views: a list of operation occurrences has those of the 10,000 greatest numbers.
///
/// Source: own rule, docs/FORMATS.md.
pub fn limits_of_lists()
    ensures listed { MAX_LISTED ≡ 10000 }
{}
