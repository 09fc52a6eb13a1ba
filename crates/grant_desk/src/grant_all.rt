//! An orchestrator in memory that grants whatever it is asked for.
ghost use Rattle.std.specs.Prelude.{◌≡◌, ◌≢◌, IfErr, IfOk, Ok, codes, false, length, map, option_and_then};
ghost use Rattle.std.specs.Prelude.{option_copied, option_map, true};
ghost use Rattle.serde_json.specs.Data.{string};
ghost use Rattle.serde_json.specs.Find.{as_str, get};
ghost use Rattle.serde_json.specs.View.{items_view, view};
ghost use Rattle.serde_json.specs.Written.{compact_text};
ghost use Rattle.grant_desk.specs.GrantAll.{Serves, answer_to, answer_with, grant, grant_for, grant_id, grant_text};
ghost use Rattle.grant_desk.specs.GrantAll.{row, rows_for, rows_where, RequestsAreGranted};

use itoa::Buffer;
use serde_json::{Map, Value, json, put};
use site_traits::{BYTES, CALLS, Call, HEARD_MAX, Heard, Log, Orchestrator};
use std::alloc::{AllocError, Global};
use vnfm_base::Line;

/// An orchestrator in memory, which tells all: it grants whatever it is asked for.
///
/// A request that it can read is answered by 201 with a grant of each identifier in the order asked, all at the
/// connection `vim1` and in no zone. The grants are `g1`, `g2` and on. A request is a JSON object in which
/// `addResources`, `removeResources` and `updateResources` are absent or lists of objects whose `id` is a text. Another
/// request fails, as does one whose grant has more than 1,048,576 bytes, and each poll.
///
/// It has room for 1,048,576 requests, and for 64 MiB of them and their answers; a request past it fails. Reading a
/// request takes memory, from the allocator that `new` was given: where there is none, the request fails, and is
/// counted as such.
///
/// Source: SOL 003 9.4.2 (Grants), 9.5.2.2 (GrantRequest), 9.5.2.3 (Grant); own rule.
pub struct GrantAll {
    alloc: Global,
    served: Log<usize>,
    calls: u64,
    faults: u64,
    starved: u64,
}

impl Drop for GrantAll {
    // Written out, so that the proof of a caller calls it and doesn't take the value apart at each of its ends.
    fn drop(self) {
        let GrantAll {
            alloc: _,
            served: _,
            calls: _,
            faults: _,
            starved: _,
        } = self;
    }
}

impl GrantAll {
    ghost use Rattle.grant_desk.specs.GrantAll.{IsNew};

    /// An orchestrator that was never called. It takes all the room of its record.
    pub fn new(alloc: Global) -> Result<GrantAll, AllocError>
        ensures { IfOk result IsNew }
    {
        Ok(GrantAll {
            alloc,
            served: Log::new(alloc, CALLS, BYTES)?,
            calls: 0,
            faults: 0,
            starved: 0,
        })
    }

    /// How many grant requests were answered.
    pub fn asked(&self) -> usize
        ensures { result ≡ length self.now.served.calls }
    {
        self.served.len()
    }

    /// How many calls failed.
    pub fn faults(&self) -> u64
        ensures { result ≡ self.now.faults }
    {
        self.faults
    }

    /// How many of them failed for want of memory.
    pub fn starved(&self) -> u64
        ensures { result ≡ self.now.starved }
    {
        self.starved
    }
}

/// The text of the grant behind so many for the request with these bytes; `None` where they can't be read.
fn grant_text(alloc: Global, before: usize, bytes: &[u8]) -> Result<Option<Vec<u8>>, AllocError>
    ensures { IfOk result (λ text. option_map (λ t. t.items) text ≡ grant_text before bytes.now) }
{
    match Value::from_slice(alloc, bytes) {
        Ok(value) => text_for(alloc, before, &value),
        Err(error) => {
            if error.is_memory() {
                Err(AllocError)
            } else {
                Ok(None)
            }
        }
    }
}

/// The text of the grant behind so many for a request.
fn text_for(alloc: Global, before: usize, request: &Value) -> Result<Option<Vec<u8>>, AllocError>
    ensures { IfOk result (λ text. option_map (λ t. t.items) text
        ≡ option_map compact_text (grant_for before (view request.now))) }
{
    let Some(grant) = grant_for(alloc, before, request)? else {
        return Ok(None);
    };
    Ok(Some(grant.to_vec(alloc)?))
}

/// The grant behind so many for a request.
fn grant_for(alloc: Global, before: usize, request: &Value) -> Result<Option<Value>, AllocError>
    ensures { IfOk result (λ grant. option_map view grant ≡ grant_for before (view request.now)) }
{
    if !request.is_object() {
        return Ok(None);
    }
    let Some(add) = rows_where(alloc, request.get("addResources"))? else {
        return Ok(None);
    };
    let Some(remove) = rows_where(alloc, request.get("removeResources"))? else {
        return Ok(None);
    };
    let Some(update) = rows_where(alloc, request.get("updateResources"))? else {
        return Ok(None);
    };
    Ok(Some(grant(alloc, before, add, remove, update)?))
}

/// The grant behind so many that has these rows.
fn grant(
    alloc: Global,
    before: usize,
    add: Vec<Value>,
    remove: Vec<Value>,
    update: Vec<Value>,
) -> Result<Value, AllocError>
    ensures { IfOk result (λ value. view value ≡ grant before (map view add.items) (map view remove.items)
        (map view update.items)) }
{
    let mut members = Map::new(alloc);
    put(&mut members, alloc, "addResources", Value::Array(add))?;
    put(&mut members, alloc, "removeResources", Value::Array(remove))?;
    put(&mut members, alloc, "updateResources", Value::Array(update))?;
    put(&mut members, alloc, "id", grant_id(alloc, before)?)?;
    Ok(Value::Object(members))
}

/// The identifier of the grant behind so many.
fn grant_id(alloc: Global, before: usize) -> Result<Value, AllocError>
    ensures { IfOk result (λ value. view value ≡ string (grant_id before)) }
{
    let mut digits = Buffer::new();
    let mut id = String::from_str(alloc, "g")?;
    id.push_str(digits.format(before as u128 + 1))?;
    Ok(Value::String(id))
}

/// What is granted for a list that may be absent.
fn rows_where(alloc: Global, list: Option<&Value>) -> Result<Option<Vec<Value>>, AllocError>
    ensures { IfOk result (λ rows. option_map (λ r. map view r.items) rows
        ≡ rows_where (option_map (λ v. view v.now) list.entry)) }
{
    let Some(list) = list else {
        return Ok(Some(Vec::new(alloc)));
    };
    match list.as_array() {
        Some(entries) => rows_for(alloc, entries.as_slice()),
        None => Ok(None),
    }
}

/// What is granted for the entries of a list.
fn rows_for(alloc: Global, entries: &[Value]) -> Result<Option<Vec<Value>>, AllocError>
    ensures { IfOk result (λ rows. option_map (λ r. map view r.items) rows ≡ rows_for (items_view entries.now)) }
{
    let mut rows = Vec::new(alloc);
    for entry in entries {
        let Some(id) = id_in(entry) else {
            return Ok(None);
        };
        rows.push(row(alloc, id)?)?;
    }
    Ok(Some(rows))
}

/// The identifier of an entry.
fn id_in(entry: &Value) -> Option<&str>
    ensures { option_copied result ≡ option_and_then as_str (get (codes "id") (view entry.now)) }
{
    entry.get("id")?.as_str()
}

/// What is granted for an identifier.
fn row(alloc: Global, id: &str) -> Result<Value, AllocError>
    ensures { IfOk result (λ value. view value ≡ row id.now) }
{
    json!(in alloc; {"resourceDefinitionId": id, "vimConnectionId": "vim1"})
}

/// Answers the request with this body by this text, where that is heard and there is room for both on record.
fn answer(served: &mut Log<usize>, body: &[u8], text: &[u8], heard: &mut Heard) -> bool
    ensures serves { Serves (answer_with text.now) body.now result heard.new served.old served.new }
    ensures unheard { result ≡ false → heard.new ≡ heard.old }
{
    if text.len() > HEARD_MAX || !served.push(body.len(), body, text) {
        return false;
    }
    heard.hear(201, None, text);
    true
}

/// Answers the request with this body, where it has an answer and there is room for both on record.
fn serve(
    alloc: Global,
    served: &mut Log<usize>,
    body: &[u8],
    heard: &mut Heard,
) -> Result<bool, AllocError>
    ensures serves { IfOk result (λ is. Serves (answer_to (length served.old.calls) body.now) body.now is heard.new
        served.old served.new) }
    ensures kept { IfErr result (λ e. served.new ≡ served.old) }
    ensures unheard { result ≢ Ok true → heard.new ≡ heard.old }
{
    match grant_text(alloc, served.len(), body)? {
        Some(text) => Ok(answer(served, body, &text, heard)),
        None => Ok(false),
    }
}

impl Orchestrator for GrantAll {
    ghost use Rattle.grant_desk.specs.GrantAll.{RunsAsk, counts_of, state_of};
    ghost use Rattle.site_traits.specs.Peers.{Asks, Polls, CallCause};

    ghost tells = { Unit {0} };

    ghost state = { state_of };

    ghost counts = { counts_of };

    fn ask(&mut self, body: &[u8], heard: &mut Heard) -> Call
        ensures told { Asks body.now heard.new result (state_of self.old) (state_of self.new) }
        ensures cause { CallCause result (counts_of self.old) (counts_of self.new) }
        ensures runs { RunsAsk body.now heard.new result self.old self.new }
        ensures unheard { result ≡ Call.Failed → heard.new ≡ heard.old }
    {
        self.calls = self.calls.saturating_add(1);
        match serve(self.alloc, &mut self.served, body, heard) {
            Ok(true) => Call::Came,
            Ok(false) => {
                self.faults = self.faults.saturating_add(1);
                Call::Failed
            }
            Err(AllocError) => {
                self.starved = self.starved.saturating_add(1);
                self.faults = self.faults.saturating_add(1);
                Call::Failed
            }
        }
    }

    fn poll(&mut self, location: &Line, heard: &mut Heard) -> Call
        ensures told { Polls location.now heard.new result (state_of self.old) (state_of self.new) }
        ensures cause { CallCause result (counts_of self.old) (counts_of self.new) }
        ensures failed { result ≡ Call.Failed }
        ensures unheard { heard.new ≡ heard.old }
        ensures starved { self.new.starved ≡ self.old.starved }
    {
        self.calls = self.calls.saturating_add(1);
        self.faults = self.faults.saturating_add(1);
        Call::Failed
    }
}

/// That an orchestrator that grants all can read each request that `grant_body` gives, and grants each change of its
/// plan once, in the list that asks for it, in the order of the plan, and nothing else. It does nothing, and its
/// contract is the law.
///
/// Source: SOL 003 9.5.2.3 (Grant).
pub fn requests_are_granted()
    ensures { RequestsAreGranted }
{}
