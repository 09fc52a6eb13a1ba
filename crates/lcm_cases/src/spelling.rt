//! Acts on the words of a command line: what they set, which page they ask for, and the line that explains how a run
//! ended.

use crate::checks::is_text;
use crate::commands::command_of;
use crate::stage::Stage;
use case_lives::{ActFault, CaseFault, differs, list, part, quoted, truth, word};
use command_line::{Settings, SettingsFault, settings};
use lcm_events::Role;
use outside_edges::WhyLost;
use program_words::{kind_of, page_of, reason_of};
use serde_json::Value;
use served_account::Account;
use std::alloc::{AllocError, Global};
use vnfm_base::Text;

/// The word of a role.
fn role_word(role: Role) -> &'static str {
    match role {
        Role::Orchestrator => "Orchestrator",
        Role::Element => "Element",
    }
}

/// What is set, as an act spells it: the command, the journal, the manager, the role, the rounds, both addresses, the
/// orchestrator, the infrastructure, where the journal is migrated to, and the start and the steps of a trial.
fn spelled(alloc: Global, set: &Settings) -> Result<String, AllocError> {
    let (command, journal, manager, role) = (
        set.command,
        set.journal.as_str(),
        set.manager,
        role_word(set.role),
    );
    let (rounds, listen, em_listen) = (set.rounds, set.listen.as_str(), set.em_listen.as_str());
    let (orchestrator, vim) = (set.orchestrator.as_str(), set.vim.as_str());
    let (to, start, count) = (set.to.as_str(), set.start, set.count);
    let addresses = format!(in alloc; "{listen:?} {em_listen:?} {orchestrator:?} {vim:?}")?;
    format!(in alloc;
        "{command:?} {journal:?} {manager} {role} {rounds} {} {to:?} {start} {count}",
        addresses.as_str()
    )
}

/// What these words set, spelled so; `usage` where they are no command.
fn set_by(alloc: Global, words: &[Text]) -> Result<String, AllocError> {
    match settings(alloc, words) {
        Ok(set) => spelled(alloc, &set),
        Err(SettingsFault::Usage) => String::from_str(alloc, "usage"),
        Err(SettingsFault::Memory) => Err(AllocError),
    }
}

/// Why a file was lost, by its word; nothing where the word is empty.
fn lost_by(word: &str) -> Result<Option<WhyLost>, CaseFault> {
    Ok(Some(match word {
        "" => return Ok(None),
        "locked" => WhyLost::Locked,
        "no folder" => WhyLost::NoFolder,
        "not permitted" => WhyLost::NotPermitted,
        "read only" => WhyLost::ReadOnly,
        "not a file" => WhyLost::NotAFile,
        "dangling link" => WhyLost::DanglingLink,
        "link loop" => WhyLost::LinkLoop,
        "name too long" => WhyLost::NameTooLong,
        "no space" => WhyLost::NoSpace,
        "quota" => WhyLost::Quota,
        "too large" => WhyLost::TooLarge,
        "memory" => WhyLost::Memory,
        "other" => WhyLost::Other,
        _ => return Err(CaseFault::Spelling),
    }))
}

/// The status at this place of an act.
fn status(act: &[Value], place: usize) -> Result<u8, CaseFault> {
    match part(act, place)?.as_u64().map(u8::try_from) {
        Some(Ok(status)) => Ok(status),
        _ => Err(CaseFault::Spelling),
    }
}

/// The line of a run with these words that ended so; nothing where there is none.
fn line_of(
    alloc: Global,
    words: &[Text],
    status: u8,
    lost: Option<WhyLost>,
    spare: Option<WhyLost>,
    undelivered: bool,
) -> Result<String, AllocError> {
    let kind = kind_of(words);
    match reason_of(kind, status, lost, spare, undelivered, Account::new()) {
        Some(reason) => reason.line(alloc, words),
        None => Ok(String::new(alloc)),
    }
}

/// The text of the page that these words ask for; nothing where they ask for none.
fn page_text(words: &[Text]) -> &'static str {
    match page_of(words) {
        Some(page) => page.text(),
        None => "",
    }
}

impl Stage {
    /// `["set", WORDS, TEXT]`: these words set this.
    pub fn is_set(&self, alloc: Global, act: &[Value]) -> Result<(), ActFault> {
        let words = command_of(alloc, list(act, 1)?)?;
        is_text(alloc, &set_by(alloc, &words)?, act, 2)
    }

    /// `["line", WORDS, STATUS, LOST, SPARE, UNDELIVERED, LINE]`: a run with these words that ended with this status,
    /// lost its journal so and the file to which that is migrated so, and couldn't deliver an answer, where it says so,
    /// is explained by this line.
    pub fn is_explained(&self, alloc: Global, act: &[Value]) -> Result<(), ActFault> {
        let (status, lost, spare, undelivered) = (
            status(act, 2)?,
            lost_by(word(act, 3)?)?,
            lost_by(word(act, 4)?)?,
            truth(act, 5)?,
        );
        let words = command_of(alloc, list(act, 1)?)?;
        let line = line_of(alloc, &words, status, lost, spare, undelivered)?;
        is_text(alloc, &line, act, 6)
    }

    /// `["page", WORDS, FRONT]`: these words ask for a page that begins so; for none where that is empty.
    pub fn is_page(&self, alloc: Global, act: &[Value]) -> Result<(), ActFault> {
        let front = word(act, 2)?;
        let words = command_of(alloc, list(act, 1)?)?;
        let text = page_text(&words);
        if text.starts_with(front) && text.is_empty() == front.is_empty() {
            return Ok(());
        }
        Err(differs(
            quoted(alloc, front.as_bytes())?,
            quoted(alloc, text.as_bytes())?,
        ))
    }
}
