//! The parts of a request target.
//!
//! Nothing is decoded: a part is the bytes that stand there.
ghost use Rattle.std.specs.Prelude.{◌≡◌};
ghost use Rattle.lcm_routes.specs.Targets.{asks_filter, identifier_in, is_filter, path_of, query_of};

/// The path of a request target: up to its first `?`, all of it where it has none.
///
/// Source: RFC 3986 3.3 (Path).
pub fn path_of(target: &str) -> &str
    ensures { result.now ≡ path_of target.now }
{
    match target.split_once('?') {
        Some((path, _)) => path,
        None => target,
    }
}

/// The query of a request target: behind its first `?`, empty where it has none.
///
/// Source: RFC 3986 3.4 (Query).
pub fn query_of(target: &str) -> &str
    ensures { result.now ≡ query_of target.now }
{
    match target.split_once('?') {
        Some((_, query)) => query,
        None => "",
    }
}

/// Whether a part of the query, whose parts are joined by `&`, begins with `filter=`.
///
/// Source: SOL 013 (attribute-based filtering).
pub fn asks_filter(target: &str) -> bool
    ensures { result ≡ asks_filter target.now }
{
    query_of(target).split('&').any(|part| is_filter(part))
}

// Whether a part of a query gives a filter.
fn is_filter(part: &str) -> bool
    ensures { result ≡ is_filter part.now }
{
    part.starts_with("filter=")
}

/// The text of the identifier in a path: its fifth segment, which stands behind the collection's name and its slash, up
/// to the next slash or the end. It is empty where there is none.
///
/// Source: SOL 003 5.3 (Resource structure and methods), RFC 3986 3.3 (Path).
pub fn identifier_in(path: &str) -> &str
    ensures { result.now ≡ identifier_in path.now }
{
    path.split('/').nth(4).unwrap_or("")
}
