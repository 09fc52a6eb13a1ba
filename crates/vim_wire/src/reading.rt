//! A line to the call or the reply that it spells, and nothing else.
ghost use Rattle.std.specs.Prelude.{◌≡◌, ◌≤◌, ◌++◌, ◌∷◌, [], ℕ, List, All, IfOk, IfErr, OnOk, IfSome, Some, Err, Ok};
ghost use Rattle.std.specs.Prelude.{MatchOption, length, map};
ghost use Rattle.vim_wire.specs.Lines.{IsAct, IsCall, IsReply, IsTagged, IsTyped, act_fields, call_fields, call_line};
ghost use Rattle.vim_wire.specs.Lines.{name_field, reply_fields, reply_line, tag_field};
ghost use Rattle.vim_wire.specs.declared.lines.VimCall.{VimCall as CallOf};
ghost use Rattle.vim_wire.specs.declared.lines.VimReply.{VimReply as ReplyOf};
ghost use Rattle.lcm_events.specs.declared.acts.Act.{Act as ActOf};
ghost use Rattle.lcm_events.specs.declared.attempts.Tag.{Tag as TagOf};
ghost use Rattle.vim_wire.specs.Parts.{joined, parts_of};
ghost use Rattle.vnfm_base.specs.Text.{IsName};

use crate::fault::VimFault;
use crate::fields::name;
use crate::lines::{LINE_BYTES, VimCall, VimReply};
use crate::parts::Parts;
use crate::sequences::Read;
use lcm_events::{Act, DefKind, Listed, Names, Tag, Verb, Way};
use std::alloc::Global;
use vnfm_base::Name;

/// The call whose line these bytes are, with its line feed.
///
/// Takes the memory of the names that an act is done on.
/// Refusals: `NotLine` exactly where the bytes are no call's line; `Memory`.
/// Source: own format, docs/VIM.md.
pub fn read_call(alloc: Global, bytes: &[u8]) -> Result<VimCall, VimFault>
    ensures found { IfOk result (λ call. IsCall call × (bytes.now ≡ call_line call)) }
    ensures none { result ≡ Err VimFault.NotLine → (call : CallOf) → IsCall call → bytes.now ≡ call_line call → ⊥ }
{
    match body(bytes) {
        Some(fields) => call_of(alloc, &mut Parts::of(b' ', fields)),
        None => Err(VimFault::NotLine),
    }
}

/// The reply whose line these bytes are, with its line feed. It takes no memory.
///
/// Refusal: `NotLine` exactly where the bytes are no reply's line.
/// Source: own format, docs/VIM.md.
pub fn read_reply(bytes: &[u8]) -> Result<VimReply, VimFault>
    ensures found { IfOk result (λ reply. IsReply reply × (bytes.now ≡ reply_line reply)) }
    ensures again { (reply : ReplyOf) → IsReply reply → bytes.now ≡ reply_line reply → result ≡ Ok reply }
    ensures fault { IfErr result (λ fault. fault ≡ VimFault.NotLine) }
{
    match body(bytes) {
        Some(fields) => match reply_of(&mut Parts::of(b' ', fields)) {
            Some(reply) => Ok(reply),
            None => Err(VimFault::NotLine),
        },
        None => Err(VimFault::NotLine),
    }
}

/// What stands before the line feed of bytes that aren't too many for a line.
fn body(bytes: &[u8]) -> Option<&[u8]>
    ensures { MatchOption result
        ((front : List ℕ) → length bytes.now ≤ 131072 → bytes.now ≡ front ++ 10 ∷ [] → ⊥)
        (λ front. (length bytes.now ≤ 131072) × (bytes.now ≡ front.now ++ 10 ∷ [])) }
{
    if bytes.len() > LINE_BYTES {
        return None;
    }
    match bytes {
        [front @ .., b'\n'] => Some(front),
        _ => None,
    }
}

/// The call of these fields.
fn call_of(alloc: Global, fields: &mut Parts) -> Result<VimCall, VimFault>
    ensures found { IfOk result (λ call. IsTyped call × (fields.old ≡ call_fields call)) }
    ensures none { result ≡ Err VimFault.NotLine → (call : CallOf) → IsTyped call → fields.old ≡ call_fields call → ⊥ }
{
    let Some(word) = fields.next() else {
        return Err(VimFault::NotLine);
    };
    let Some((manager, tag)) = tag_of(fields) else {
        return Err(VimFault::NotLine);
    };
    if word == b"BEGIN".as_slice() {
        let act = act_of(alloc, fields)?;
        return Ok(VimCall::Begin { manager, tag, act });
    }
    let behind = fields.next();
    if behind.is_some() {
        return Err(VimFault::NotLine);
    }
    if word == b"LOOK".as_slice() {
        Ok(VimCall::Look { manager, tag })
    } else if word == b"ABORT".as_slice() {
        Ok(VimCall::Abort { manager, tag })
    } else {
        Err(VimFault::NotLine)
    }
}

/// The attempt of the first field, and its manager.
fn tag_of(fields: &mut Parts) -> Option<(u32, Tag)>
    ensures found { IfSome result (λ t. IsTagged t.0 t.1 × (fields.old ≡ tag_field t.0 t.1 ∷ fields.new)) }
    ensures again { (manager : ℕ) (tag : TagOf) (rest : List (List ℕ)) → IsTagged manager tag
        → fields.old ≡ tag_field manager tag ∷ rest
        → (result ≡ Some (manager, tag)) × (fields.new ≡ rest) }
{
    let field = fields.next()?;
    tag(field)
}

/// The attempt of this field, and its manager.
fn tag(field: &[u8]) -> Option<(u32, Tag)>
    ensures found { IfSome result (λ t. IsTagged t.0 t.1 × (field.now ≡ tag_field t.0 t.1)) }
    ensures again { (manager : ℕ) (tag : TagOf) → IsTagged manager tag → field.now ≡ tag_field manager tag
        → result ≡ Some (manager, tag) }
{
    let mut parts = Parts::of(b'.', field);
    let (manager, (occ, (change, (attempt, way)))): (u32, (u64, (u16, (u32, Way)))) = Read::read(
        &mut parts,
    )?;
    if parts.next().is_some() {
        return None;
    }
    Some((
        manager,
        Tag {
            occ,
            change,
            attempt,
            way,
        },
    ))
}

/// The act of all these fields.
fn act_of(alloc: Global, fields: &mut Parts) -> Result<Act, VimFault>
    ensures found { IfOk result (λ act. IsAct act × (fields.old ≡ act_fields act)) }
    ensures none { result ≡ Err VimFault.NotLine → (act : ActOf) → IsAct act → fields.old ≡ act_fields act → ⊥ }
{
    let Some(front) = Front::read(fields) else {
        return Err(VimFault::NotLine);
    };
    let (verb, (kind, (template, (vdu, (serial, (vim, (zone, (size, cpus)))))))) = front;
    let on = names_of(alloc, fields)?;
    Ok(Act {
        verb,
        kind,
        template,
        vdu,
        serial,
        vim,
        zone,
        size,
        cpus,
        on,
    })
}

/// The nine members of an act that stand before the names that it is done on.
type Front = (
    Verb,
    (DefKind, (Name, (Name, (u32, (Name, (Name, (u64, u32))))))),
);

/// The names of all these fields.
fn names_of(alloc: Global, fields: &mut Parts) -> Result<Names, VimFault>
    ensures found { IfOk result (λ names. All IsName names × (fields.old ≡ map name_field names)) }
    ensures none { result ≡ Err VimFault.NotLine → (names : List (List ℕ)) → All IsName names
        → fields.old ≡ map name_field names → ⊥ }
{
    let mut names = Listed::new(alloc);
    while let Some(field) = fields.next() {
        match name(field) {
            Some(name) => put(&mut names, name)?,
            None => return Err(VimFault::NotLine),
        }
    }
    Ok(names)
}

/// Puts a name last.
fn put(names: &mut Names, name: Name) -> Result<(), VimFault>
    ensures ok { OnOk result (names.new ≡ names.old ++ name ∷ []) }
    ensures memory { IfErr result (λ fault. fault ≡ VimFault.Memory) }
{
    match names.push(name) {
        Ok(()) => Ok(()),
        Err(_) => Err(VimFault::Memory),
    }
}

/// The reply of all these fields.
fn reply_of(fields: &mut Parts) -> Option<VimReply>
    ensures found { IfSome result (λ reply. IsReply reply × (fields.old ≡ reply_fields reply)) }
    ensures again { (reply : ReplyOf) → IsReply reply → fields.old ≡ reply_fields reply → result ≡ Some reply }
{
    let word = fields.next()?;
    let reply = reply_after(word, fields)?;
    if fields.next().is_some() {
        return None;
    }
    Some(reply)
}

/// The reply of this word and the fields at the front, which are taken.
fn reply_after(word: &[u8], fields: &mut Parts) -> Option<VimReply>
    ensures found { IfSome result (λ reply. IsReply reply
        × (word.now ∷ fields.old ≡ reply_fields reply ++ fields.new)) }
    ensures again { (reply : ReplyOf) → IsReply reply → word.now ∷ fields.old ≡ reply_fields reply
        → (result ≡ Some reply) × (fields.new ≡ []) }
{
    if word == b"DONE".as_slice() {
        let name = Name::read(fields)?;
        Some(VimReply::Done(name))
    } else if word == b"REFUSED".as_slice() {
        let code = u32::read(fields)?;
        Some(VimReply::Refused(code))
    } else if word == b"BROKEN".as_slice() {
        let code = u32::read(fields)?;
        Some(VimReply::Broken(code))
    } else {
        plain_reply(word)
    }
}

/// The reply that is just this word.
fn plain_reply(word: &[u8]) -> Option<VimReply>
    ensures found { IfSome result (λ reply. IsReply reply × (word.now ∷ [] ≡ reply_fields reply)) }
    ensures again { (reply : ReplyOf) → IsReply reply → word.now ∷ [] ≡ reply_fields reply → result ≡ Some reply }
{
    if word == b"BEGUN".as_slice() {
        Some(VimReply::Begun)
    } else if word == b"ABSENT".as_slice() {
        Some(VimReply::Absent)
    } else if word == b"RUNNING".as_slice() {
        Some(VimReply::Running)
    } else if word == b"ABORTED".as_slice() {
        Some(VimReply::Aborted)
    } else if word == b"ASKED".as_slice() {
        Some(VimReply::Asked)
    } else {
        None
    }
}
