//! The worked lines of the protocol: what is written of two calls and of a reply, what texts are read as replies, and
//! how the calls on standard input are answered where each job is told as running to one look.
#![tactic(auto)]

use anyhow::{Result, bail};
use lcm_events::{Act, DefKind, Names, Tag, Verb, Way};
use std::alloc::AllocGlobal;
use std::io::Print;
use std::str;
use vim_jobs::{VimJobs, serve};
use vim_wire::{VimReply, abort_line, begin_line, look_line, read_reply, reply_line};
use vnfm_base::{Bytes, Name};

/// The number of the manager.
const MANAGER: u32 = 7;

/// Texts, of which some are replies.
const TEXTS: [&str; 14] = [
    "DONE x7231\n",
    "DONE r1\n",
    "DONE x7231",
    "DONE x7A31\n",
    "DONE x723\n",
    "DONE x\n",
    "REFUSED 12\n",
    "REFUSED 012\n",
    "REFUSED 4294967296\n",
    "BROKEN 0\n",
    "BROKEN 0 0\n",
    "RUNNING\n",
    "RUNNING \n",
    "running\n",
];

/// The name of this text.
fn name(text: &str) -> Result<Name> {
    match Name::of(text.as_bytes()) {
        Some(name) => Ok(name),
        None => bail!("no name"),
    }
}

/// Prints a line as it is.
fn print_line(rt: &impl Print, line: &Bytes) -> Result<()> {
    print!(rt; "{}", str::from_utf8(line.as_slice())?)?;
    Ok(())
}

/// Prints what is written of the first change of an instantiation, of looks and aborts of it, and of a reply.
fn print_lines(rt: &(impl Print + AllocGlobal)) -> Result<()> {
    let tag = Tag {
        occ: 1,
        change: 0,
        attempt: 1,
        way: Way::Forward,
    };
    let act = Act {
        verb: Verb::Create,
        kind: DefKind::Link,
        template: name("net_data")?,
        vdu: name("")?,
        serial: 0,
        vim: name("vim1")?,
        zone: name("")?,
        size: 0,
        cpus: 0,
        on: Names::new(rt.alloc()),
    };
    print_line(rt, &begin_line(rt.alloc(), MANAGER, &tag, &act)?)?;
    print_line(rt, &look_line(rt.alloc(), MANAGER, &tag)?)?;
    print_line(rt, &abort_line(rt.alloc(), MANAGER, &tag)?)?;
    print_line(rt, &reply_line(rt.alloc(), &VimReply::Refused(12))?)?;
    print_line(rt, &reply_line(rt.alloc(), &VimReply::Done(name("r1")?))?)
}

/// Prints what this text is read as.
fn print_text(rt: &impl Print, text: &str) -> Result<()> {
    match read_reply(text.as_bytes()) {
        Ok(reply) => print_reply(rt, text, &reply),
        Err(fault) => {
            println!(rt; "{text:?}: {fault}")?;
            Ok(())
        }
    }
}

/// Prints the reply that this text is.
fn print_reply(rt: &impl Print, text: &str, reply: &VimReply) -> Result<()> {
    match reply {
        VimReply::Begun => println!(rt; "{text:?}: begun")?,
        VimReply::Refused(code) => println!(rt; "{text:?}: refused, {code}")?,
        VimReply::Absent => println!(rt; "{text:?}: absent")?,
        VimReply::Running => println!(rt; "{text:?}: running")?,
        VimReply::Done(name) => println!(rt; "{text:?}: done, {:?}", name.as_str())?,
        VimReply::Broken(code) => println!(rt; "{text:?}: broken, {code}")?,
        VimReply::Aborted => println!(rt; "{text:?}: aborted")?,
        VimReply::Asked => println!(rt; "{text:?}: asked")?,
    }
    Ok(())
}

fn main(rt: HostRuntime) -> Result<()> {
    print_lines(&rt)?;
    for text in TEXTS {
        print_text(&rt, text)?;
    }
    let mut jobs = VimJobs::new(rt.alloc(), 1);
    let over = serve(rt.alloc(), &mut jobs, rt.stdin(), &mut rt.stdout());
    println!(rt; "{over:?}")?;
    Ok(())
}
