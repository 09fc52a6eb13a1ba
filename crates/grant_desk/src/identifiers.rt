//! The identifiers of changes in a grant request and a grant: `d` and the change's number.
ghost use Rattle.std.specs.Prelude.{◌≡◌, ◌<◌, ◌^◌, ℕ, IfSome, Some};
ghost use Rattle.lcm_model.specs.Grants.{change_id};

use vnfm_base::{Name, whole_number};

/// The number of the change with this identifier; `None` where no change can have it.
pub fn change_number(id: &Name) -> Option<u64>
    ensures found { IfSome result (λ k. (k < 2 ^ 64) × (id.now ≡ change_id k)) }
    ensures read { (k : ℕ) → k < 2 ^ 64 → id.now ≡ change_id k → result ≡ Some k }
{
    let digits = id.as_str().strip_prefix("d")?;
    whole_number(digits)
}
