//! Why a subscription isn't made, by what its request says.
ghost use Rattle.std.specs.Prelude.{◌≡◌, IfOk};
ghost use Rattle.subscription_asks.specs.Refusals.{content_refusal, is_http_uri};

use json_bodies::SubscriptionBody;
use std::alloc::{AllocError, Global};
use url::{ParseError, Url};

/// Why the content of a request to subscribe is refused.
///
/// Source: own rules over SOL 003 5.4.18 (Subscriptions).
#[derive(Clone, Copy, PartialEq, Eq)]
pub enum SubscriptionRefusal {
    /// Its callback is no http URI.
    NotHttpUri,
    /// Its filter has `vnfProductsFromProviders`, which isn't served: to pass it over would tell more than was asked
    /// for.
    ProductsNotServed,
}

/// What is wrong first with the content of a request to subscribe, or None where nothing is. `AllocError` is want of
/// memory.
///
/// Source: own rules over SOL 003 5.4.18 (Subscriptions).
pub fn content_refusal(
    alloc: Global,
    body: &SubscriptionBody,
) -> Result<Option<SubscriptionRefusal>, AllocError>
    ensures { IfOk result (λ refusal. refusal ≡ content_refusal body.now) }
{
    if !is_http_uri(alloc, body.callback.as_str())? {
        return Ok(Some(SubscriptionRefusal::NotHttpUri));
    }
    if body.asked.products {
        return Ok(Some(SubscriptionRefusal::ProductsNotServed));
    }
    Ok(None)
}

/// Whether a text is a URI of the scheme http with a host, to which a notice can be posted. `AllocError` is want of
/// memory, also for one of 4 GB.
///
/// Source: own rule over SOL 003 5.5.2.15 (`callbackUri`); the URL Standard.
pub fn is_http_uri(alloc: Global, text: &str) -> Result<bool, AllocError>
    ensures { IfOk result (λ is. is ≡ is_http_uri text.now) }
{
    match Url::parse(alloc, text) {
        Ok(url) => Ok(url.scheme() == "http" && url.has_host()),
        Err(ParseError::OutOfMemory | ParseError::Overflow) => Err(AllocError),
        Err(_) => Ok(false),
    }
}
