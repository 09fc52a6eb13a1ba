//! What a step of a trial may wish for, and the parts of its request.
ghost use Rattle.std.specs.Prelude.{◌≡◌};
ghost use Rattle.lcm_trial.specs.Wishes.{body_of, is_about_operation, method_of, tail_of, wish_numbered};

use http::Method;

/// What a step wishes for.
///
/// Source: own rule, docs/FORMATS.md, "The trial".
#[derive(Clone, Copy, PartialEq, Eq)]
pub enum Wish {
    /// An instance more.
    Create,
    /// That the instance be instantiated, to the default level.
    Instantiate,
    /// One step more of its aspect.
    ScaleOut,
    /// One step less of its aspect.
    ScaleIn,
    /// That it be healed.
    Heal,
    /// That it be terminated, gracefully.
    Terminate,
    /// That its operation be cancelled, gracefully.
    Cancel,
    /// That its operation be retried.
    Retry,
    /// That its operation be rolled back.
    Rollback,
    /// That the instance be deleted.
    Delete,
}

/// The wish of this number, from 0; each past the last is the last.
///
/// Source: own rule, docs/FORMATS.md, "The trial".
#[tactic(auto, unfolding(crate::specs::Wishes::wish_numbered))]
pub fn wish_numbered(number: u64) -> Wish
    ensures { result ≡ wish_numbered number }
{
    match number {
        0 => Wish::Create,
        1 => Wish::Instantiate,
        2 => Wish::ScaleOut,
        3 => Wish::ScaleIn,
        4 => Wish::Heal,
        5 => Wish::Terminate,
        6 => Wish::Cancel,
        7 => Wish::Retry,
        8 => Wish::Rollback,
        _ => Wish::Delete,
    }
}

/// Whether the wish is about the operation of an instance that goes on.
pub fn is_about_operation(wish: Wish) -> bool
    ensures { result ≡ is_about_operation wish }
{
    matches!(wish, Wish::Cancel | Wish::Retry | Wish::Rollback)
}

/// The method of the wish's request.
///
/// Source: SOL 003 5.3 (Resource structure and supported HTTP methods).
pub fn method_of(wish: Wish) -> Method
    ensures { result ≡ method_of wish }
{
    match wish {
        Wish::Delete => Method::DELETE,
        _ => Method::POST,
    }
}

/// What stands behind the path of the resource that the wish is about.
///
/// Source: SOL 003 5.3 (Resource structure and supported HTTP methods).
pub fn tail_of(wish: Wish) -> &'static str
    ensures { result.now ≡ tail_of wish }
{
    match wish {
        Wish::Create | Wish::Delete => "",
        Wish::Instantiate => "/instantiate",
        Wish::ScaleOut | Wish::ScaleIn => "/scale",
        Wish::Heal => "/heal",
        Wish::Terminate => "/terminate",
        Wish::Cancel => "/cancel",
        Wish::Retry => "/retry",
        Wish::Rollback => "/rollback",
    }
}

/// The body of the wish's request.
///
/// Source: SOL 003 5.5.2 (Resource and notification data types).
pub fn body_of(wish: Wish) -> &'static str
    ensures { result.now ≡ body_of wish }
{
    match wish {
        Wish::Create => "{\"vnfdId\":\"vnfd-1\"}",
        Wish::Instantiate => "{\"flavourId\":\"simple\"}",
        Wish::ScaleOut => {
            "{\"type\":\"SCALE_OUT\",\"aspectId\":\"workers\",\"numberOfSteps\":1}"
        }
        Wish::ScaleIn => "{\"type\":\"SCALE_IN\",\"aspectId\":\"workers\",\"numberOfSteps\":1}",
        Wish::Heal => "{}",
        Wish::Terminate => "{\"terminationType\":\"GRACEFUL\"}",
        Wish::Cancel => "{\"cancelMode\":\"GRACEFUL\"}",
        Wish::Retry | Wish::Rollback | Wish::Delete => "",
    }
}
