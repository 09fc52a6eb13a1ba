//! A call or a reply to its line.
ghost use Rattle.std.specs.Prelude.{◌≡◌, ◌≤◌, ◌*◌, ◌∷◌, ◌++◌, [], All, IfOk, OnOk, codes, decimal, length, map};
ghost use Rattle.std.specs.List.{flat_map};
ghost use Rattle.hex.specs.Hex.{encode_lower};
ghost use Rattle.vim_wire.specs.Lines.{IsAct, IsCall, IsReply, IsTagged, act_fields, call_line, name_field, reply_line};
ghost use Rattle.vim_wire.specs.Lines.{tag_field, way_word, verb_word, kind_word};
ghost use Rattle.vim_wire.specs.declared.lines.VimCall.TheVariants as calls;
ghost use Rattle.vnfm_base.specs.Text.{IsName};

use crate::lines::VimReply;
use itoa::Buffer;
use lcm_events::{Act, DefKind, Tag, Verb, Way};
use std::alloc::{AllocError, Global};
use vnfm_base::{Bytes, NAME_MAX, Name};

/// The line by which a manager begins an act, with its line feed. The one failure is want of memory.
///
/// Condition: the act is done on at most 128 names, so that the line isn't too long.
/// Source: own format, docs/VIM.md.
pub fn begin_line(alloc: Global, manager: u32, tag: &Tag, act: &Act) -> Result<Bytes, AllocError>
    requires { length act.now.on ≤ 128 }
    ensures line { IfOk result (λ line. line ≡ call_line (calls.Begin manager tag.now act.now)) }
    ensures call { OnOk result (IsCall (calls.Begin manager tag.now act.now)) }
{
    let mut line = Vec::from_slice(alloc, b"BEGIN")?;
    put_tag(&mut line, manager, tag)?;
    put_act(&mut line, act)?;
    ended(line)
}

/// The line by which a manager asks how an attempt stands, with its line feed. The one failure is want of memory.
///
/// Source: own format, docs/VIM.md.
pub fn look_line(alloc: Global, manager: u32, tag: &Tag) -> Result<Bytes, AllocError>
    ensures line { IfOk result (λ line. line ≡ call_line (calls.Look manager tag.now)) }
    ensures call { OnOk result (IsCall (calls.Look manager tag.now)) }
{
    let mut line = Vec::from_slice(alloc, b"LOOK")?;
    put_tag(&mut line, manager, tag)?;
    ended(line)
}

/// The line by which a manager asks that an attempt end, with its line feed. The one failure is want of memory.
///
/// Source: own format, docs/VIM.md.
pub fn abort_line(alloc: Global, manager: u32, tag: &Tag) -> Result<Bytes, AllocError>
    ensures line { IfOk result (λ line. line ≡ call_line (calls.Abort manager tag.now)) }
    ensures call { OnOk result (IsCall (calls.Abort manager tag.now)) }
{
    let mut line = Vec::from_slice(alloc, b"ABORT")?;
    put_tag(&mut line, manager, tag)?;
    ended(line)
}

/// The line of a reply, with its line feed. The one failure is want of memory.
///
/// Source: own format, docs/VIM.md.
pub fn reply_line(alloc: Global, reply: &VimReply) -> Result<Bytes, AllocError>
    ensures line { IfOk result (λ line. line ≡ reply_line reply.now) }
    ensures reply { OnOk result (IsReply reply.now) }
{
    let mut line = Vec::new(alloc);
    match reply {
        VimReply::Begun => line.extend_from_slice(b"BEGUN")?,
        VimReply::Refused(code) => put_coded(&mut line, b"REFUSED", *code)?,
        VimReply::Absent => line.extend_from_slice(b"ABSENT")?,
        VimReply::Running => line.extend_from_slice(b"RUNNING")?,
        VimReply::Done(name) => {
            line.extend_from_slice(b"DONE")?;
            put_name(&mut line, name)?;
        }
        VimReply::Broken(code) => put_coded(&mut line, b"BROKEN", *code)?,
        VimReply::Aborted => line.extend_from_slice(b"ABORTED")?,
        VimReply::Asked => line.extend_from_slice(b"ASKED")?,
    }
    ended(line)
}

/// Ends a line.
fn ended(mut line: Vec<u8>) -> Result<Bytes, AllocError>
    ensures { IfOk result (λ bytes. bytes ≡ line.items ++ 10 ∷ []) }
{
    line.push(b'\n')?;
    Ok(Bytes::of_vec(line))
}

/// A word and a code.
fn put_coded(line: &mut Vec<u8>, word: &[u8], code: u32) -> Result<(), AllocError>
    ensures { OnOk result (line.new.items ≡ line.old.items ++ (word.now ++ 32 ∷ decimal code)) }
{
    line.extend_from_slice(word)?;
    put_number(line, b' ', code as u64)
}

/// The field of an attempt.
fn put_tag(line: &mut Vec<u8>, manager: u32, tag: &Tag) -> Result<(), AllocError>
    ensures spelled { OnOk result (line.new.items ≡ line.old.items ++ 32 ∷ tag_field manager tag.now) }
    ensures typed { OnOk result (IsTagged manager tag.now) }
{
    put_number(line, b' ', manager as u64)?;
    put_number(line, b'.', tag.occ)?;
    put_number(line, b'.', tag.change as u64)?;
    put_number(line, b'.', tag.attempt as u64)?;
    put(line, b'.', way_letter(tag.way))
}

/// The fields of an act.
fn put_act(line: &mut Vec<u8>, act: &Act) -> Result<(), AllocError>
    ensures spelled { OnOk result (line.new.items ≡ line.old.items ++ flat_map (λ f. 32 ∷ f) (act_fields act.now)) }
    ensures typed { OnOk result (IsAct act.now) }
{
    put(line, b' ', verb_text(act.verb))?;
    put(line, b' ', kind_text(act.kind))?;
    put_name(line, &act.template)?;
    put_name(line, &act.vdu)?;
    put_number(line, b' ', act.serial as u64)?;
    put_name(line, &act.vim)?;
    put_name(line, &act.zone)?;
    put_number(line, b' ', act.size)?;
    put_number(line, b' ', act.cpus as u64)?;
    put_names(line, act.on.as_slice())
}

/// The fields of some names.
fn put_names(line: &mut Vec<u8>, names: &[Name]) -> Result<(), AllocError>
    ensures spelled { OnOk result (line.new.items ≡ line.old.items
        ++ flat_map (λ f. 32 ∷ f) (map name_field names.now)) }
    ensures typed { OnOk result (All IsName names.now) }
{
    for name in names {
        put_name(line, name)?;
    }
    Ok(())
}

/// The field of a name.
fn put_name(line: &mut Vec<u8>, name: &Name) -> Result<(), AllocError>
    ensures spelled { OnOk result (line.new.items ≡ line.old.items ++ 32 ∷ name_field name.now) }
    ensures typed { IsName name.now }
{
    let bytes = name.as_bytes();
    let mut room = [0; 2 * NAME_MAX];
    put_digits(line, bytes, &mut room[..2 * bytes.len()])
}

/// The field of the name of these bytes, whose digits are put into this room.
fn put_digits(line: &mut Vec<u8>, bytes: &[u8], room: &mut [u8]) -> Result<(), AllocError>
    requires { length room.old ≡ 2 * length bytes.now }
    ensures { OnOk result (line.new.items ≡ line.old.items ++ 32 ∷ name_field bytes.now) }
{
    if hex::encode_to_slice(bytes, room).is_err() {
        unreachable!();
    }
    line.push(b' ')?;
    line.push(b'x')?;
    line.extend_from_slice(room)
}

/// A separator and a number.
fn put_number(line: &mut Vec<u8>, separator: u8, number: u64) -> Result<(), AllocError>
    ensures { OnOk result (line.new.items ≡ line.old.items ++ separator ∷ decimal number) }
{
    let mut digits = Buffer::new();
    put(line, separator, digits.format(number).as_bytes())
}

/// A separator and some bytes.
fn put(line: &mut Vec<u8>, separator: u8, bytes: &[u8]) -> Result<(), AllocError>
    ensures { OnOk result (line.new.items ≡ line.old.items ++ separator ∷ bytes.now) }
{
    line.push(separator)?;
    line.extend_from_slice(bytes)
}

fn way_letter(way: Way) -> &'static [u8]
    ensures { result.now ≡ way_word way }
{
    match way {
        Way::Forward => b"F",
        Way::Undo => b"U",
    }
}

fn verb_text(verb: Verb) -> &'static [u8]
    ensures { result.now ≡ verb_word verb }
{
    match verb {
        Verb::Create => b"CREATE",
        Verb::Remove => b"REMOVE",
        Verb::Start => b"START",
        Verb::Stop => b"STOP",
    }
}

fn kind_text(kind: DefKind) -> &'static [u8]
    ensures { result.now ≡ kind_word kind }
{
    match kind {
        DefKind::Link => b"LINK",
        DefKind::Storage => b"STORAGE",
        DefKind::Compute => b"COMPUTE",
        DefKind::Port => b"PORT",
    }
}
