//! Where a request goes, by a text from outside.
ghost use Rattle.std.specs.Prelude.{◌≡◌, ◌↔◌, None, Ok};
ghost use Rattle.vnfm_base.specs.Text.{IsLine};
ghost use Rattle.url.specs.Parser.{parse_url, IsOutOfRoom};
ghost use Rattle.http_peers.specs.Targets.{Finds, IsTargetOf, TellsOf, path_of};

use std::alloc::Global;
use url::{ParseError, Url};
use vnfm_base::{Line, LineFault, Name};

/// Where a request goes.
#[derive(Drop)]
pub struct Target {
    /// The address and port to which a connection is opened.
    pub address: String,
    /// The host and, where it isn't 80, the port.
    pub host: Name,
    /// The path and query.
    pub path: Line,
}

/// Why a text tells of no target.
#[derive(Clone, Copy, PartialEq, Eq, Debug, Drop)]
pub enum TargetFault {
    /// It is no URL of the scheme http with a host, or a part of it is too long or has a control character.
    NoTarget,
    /// There was no memory.
    Memory,
}

/// The URL of this text; one in which `://` doesn't stand lacks `http://`.
///
/// Refusals: `NoTarget` where it is none; `Memory`, which may come before that is known.
pub fn url_of(alloc: Global, text: &str) -> Result<Url, TargetFault>
    ensures { Finds (TellsOf text.now) result }
{
    if text.contains("://") {
        return parsed(alloc, text);
    }
    match format!(in alloc; "http://{text}") {
        Ok(whole) => parsed(alloc, &whole),
        Err(_) => Err(TargetFault::Memory),
    }
}

/// The URL that is this text.
fn parsed(alloc: Global, text: &str) -> Result<Url, TargetFault>
    ensures { Finds (λ url. parse_url None text.now ≡ Ok url) result }
{
    match Url::parse(alloc, text) {
        Ok(url) => Ok(url),
        Err(refusal) => Err(refused_by(refusal)),
    }
}

/// Why there is no URL, by the refusal of its parser: one of 4 GB is one for which there is no memory.
pub fn refused_by(refusal: ParseError) -> TargetFault
    ensures { (result ≡ TargetFault.Memory) ↔ IsOutOfRoom refusal }
{
    match refusal {
        ParseError::OutOfMemory | ParseError::Overflow => TargetFault::Memory,
        _ => TargetFault::NoTarget,
    }
}

/// The target of this URL.
///
/// Refusals: `NoTarget` where it has none, since it isn't of the scheme http, has no host, or its host or its path are
/// too long or have a control character; `Memory`, which may come before that is known.
pub fn target_of(alloc: Global, url: &Url) -> Result<Target, TargetFault>
    ensures { Finds (IsTargetOf url.now) result }
{
    let Some(host) = url.host_str() else {
        return Err(TargetFault::NoTarget);
    };
    if url.scheme() != "http" {
        return Err(TargetFault::NoTarget);
    }
    let Ok(address) = format!(in alloc; "{host}:{}", url.port().unwrap_or(80)) else {
        return Err(TargetFault::Memory);
    };
    let named = match url.port() {
        Some(_) => Name::of(address.as_bytes()),
        None => Name::of(host.as_bytes()),
    };
    let Some(host) = named else {
        return Err(TargetFault::NoTarget);
    };
    let path = path_of(alloc, url)?;
    Ok(Target {
        address,
        host,
        path,
    })
}

/// The path and query of this URL.
fn path_of(alloc: Global, url: &Url) -> Result<Line, TargetFault>
    ensures { Finds (λ path. (path ≡ path_of url.now) × IsLine path) result }
{
    let found = match url.query() {
        Some(query) => match format!(in alloc; "{}?{query}", url.path()) {
            Ok(text) => Line::of(alloc, text.as_bytes()),
            Err(_) => return Err(TargetFault::Memory),
        },
        None => Line::of(alloc, url.path().as_bytes()),
    };
    match found {
        Ok(line) => Ok(line),
        Err(LineFault::NotLine) => Err(TargetFault::NoTarget),
        Err(LineFault::Memory) => Err(TargetFault::Memory),
    }
}
