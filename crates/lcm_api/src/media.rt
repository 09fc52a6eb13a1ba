//! Whether a request's body is JSON, by its Content-Type.
ghost use Rattle.std.specs.Prelude.{◌≡◌, codes};
ghost use Rattle.std.specs.List.{before_first, list_all, position_or_len};
ghost use Rattle.std.specs.Str.{str_eq_ignore_ascii_case};
ghost use Rattle.lcm_api.specs.Media.{is_blank, is_json, is_semicolon, names_json};

use vnfm_base::Bytes;

/// The media type of JSON.
const JSON: &[u8] = b"application/json";

/// Whether a body with this Content-Type is taken for JSON: where there is none, it is. Parameters are passed over.
///
/// Source: RFC 9110 8.3.
pub fn is_json(media: &Option<Bytes>) -> bool
    ensures { result ≡ is_json media.now }
{
    match media {
        Some(media) => names_json(without_parameters(media.as_slice())),
        None => true,
    }
}

/// What stands before the first semicolon.
fn without_parameters(media: &[u8]) -> &[u8]
    ensures { result.now ≡ before_first is_semicolon media.now }
{
    let end = first_semicolon(media);
    &media[..end]
}

/// The place of the first semicolon, or the length where there is none.
fn first_semicolon(media: &[u8]) -> usize
    ensures { result ≡ position_or_len is_semicolon media.now }
{
    let mut place = 0;
    while place < media.len() {
        if media[place] == b';' {
            return place;
        }
        place += 1;
    }
    place
}

/// Whether this is application/json in any case of letters, with nothing but blanks behind it.
fn names_json(name: &[u8]) -> bool
    ensures { result ≡ names_json name.now }
{
    if name.len() < JSON.len() {
        return false;
    }
    let (word, rest) = name.split_at(JSON.len());
    is_word(word) && are_blanks(rest)
}

/// Whether this is application/json in any case of letters.
fn is_word(word: &[u8]) -> bool
    ensures { result ≡ str_eq_ignore_ascii_case word.now (codes "application/json") }
{
    word.eq_ignore_ascii_case(JSON)
}

/// Whether these are blanks.
fn are_blanks(bytes: &[u8]) -> bool
    ensures { result ≡ list_all is_blank bytes.now }
{
    bytes.iter().all(|byte| *byte == b' ' || *byte == b'\t')
}
