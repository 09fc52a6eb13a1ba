//! The order of definitions.

ghost use Rattle.std.specs.Prelude.{◌≡◌};
ghost use Rattle.lcm_model.specs.Descriptors.{is_def_before};

use lcm_events::Def;

/// Whether the first definition stands before the second: by VDU, serial, kind and item.
///
/// Source: own rule.
pub fn is_def_before(x: &Def, y: &Def) -> bool
    ensures { result ≡ is_def_before x.now y.now }
{
    let kinds = x.kind.number() < y.kind.number();
    x.vdu < y.vdu
        || (x.vdu == y.vdu
            && (x.serial < y.serial
                || (x.serial == y.serial && (kinds || (x.kind == y.kind && x.item < y.item)))))
}
