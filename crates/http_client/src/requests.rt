//! Requests to their bytes.
ghost use Rattle.std.specs.Prelude.{◌≡◌, ◌++◌, IfOk, OnOk, codes, decimal, length};
ghost use Rattle.http_client.specs.Requests.{content_lines, request, request_line};

use http::Method;
use itoa::Buffer;
use std::alloc::{AllocError, Global};
use vnfm_base::{Bytes, Line, Name};

/// The bytes of a request that is its connection's only one.
///
/// `host` is the host and, where it isn't 80, the port that the connection goes to. `path` is the request target, which
/// has no blank where it is the path and query of a URL. A body is JSON; of none neither type nor length are told. The
/// one failure is want of memory.
/// Source: RFC 9112 3 and 6, RFC 9110 7.2 (Host and :authority), 8.3 (Content-Type) and 8.6 (Content-Length).
pub fn request_bytes(
    alloc: Global,
    method: &Method,
    host: &Name,
    path: &Line,
    body: &[u8],
) -> Result<Bytes, AllocError>
    ensures { IfOk result (λ bytes. bytes ≡ request method.now host.now path.now body.now) }
{
    let mut bytes = Vec::with_capacity(alloc, body.len())?;
    put_line(&mut bytes, method, path)?;
    put_host(&mut bytes, host)?;
    put_content(&mut bytes, body)?;
    bytes.extend_from_slice(b"Connection: close\r\n\r\n")?;
    bytes.extend_from_slice(body)?;
    Ok(Bytes::of_vec(bytes))
}

/// The request line.
fn put_line(bytes: &mut Vec<u8>, method: &Method, path: &Line) -> Result<(), AllocError>
    ensures { OnOk result (bytes.new.items ≡ bytes.old.items ++ request_line method.now path.now) }
{
    bytes.extend_from_slice(method.as_str().as_bytes())?;
    bytes.extend_from_slice(b" ")?;
    bytes.extend_from_slice(path.as_bytes())?;
    bytes.extend_from_slice(b" HTTP/1.1\r\n")
}

/// The line of the host.
fn put_host(bytes: &mut Vec<u8>, host: &Name) -> Result<(), AllocError>
    ensures { OnOk result (bytes.new.items ≡ bytes.old.items ++ (codes "Host: " ++ (host.now ++ codes "\r\n"))) }
{
    bytes.extend_from_slice(b"Host: ")?;
    bytes.extend_from_slice(host.as_bytes())?;
    bytes.extend_from_slice(b"\r\n")
}

/// The lines that tell of the body.
fn put_content(bytes: &mut Vec<u8>, body: &[u8]) -> Result<(), AllocError>
    ensures { OnOk result (bytes.new.items ≡ bytes.old.items ++ content_lines body.now) }
{
    if body.is_empty() {
        return Ok(());
    }
    bytes.extend_from_slice(b"Content-Type: application/json\r\n")?;
    put_length(bytes, body.len())
}

/// The line that tells this length.
fn put_length(bytes: &mut Vec<u8>, len: usize) -> Result<(), AllocError>
    ensures { OnOk result (bytes.new.items ≡ bytes.old.items
        ++ (codes "Content-Length: " ++ (decimal len ++ codes "\r\n"))) }
{
    let mut digits = Buffer::new();
    bytes.extend_from_slice(b"Content-Length: ")?;
    bytes.extend_from_slice(digits.format(len).as_bytes())?;
    bytes.extend_from_slice(b"\r\n")
}
