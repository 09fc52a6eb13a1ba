//! How the stories grow by an event.
ghost use Rattle.std.specs.Prelude.{◌≡◌, ◌≤◌, ◌++◌, OnOk, length};
ghost use Rattle.lcm_model.specs.Operations.{kind_of};
ghost use Rattle.history_page.specs.Following.{fate_of, occurrence_of, stage_of, stage_of_try, state_after, steps_of};

use crate::labels::change_text;
use crate::scale::Span;
use crate::stories::{Attempt, Fate, InstanceStory, OperationStory, Stage, Step};
use lcm_events::{Ask, Event, EventKind, GrantTry, OpKind, OpState, Operation, Outcome, Tag, Vnfd};
use occ_table::OccRow;
use std::alloc::{AllocError, Global};
use vnfm_base::{Moment, Name};

/// The occurrence that an event is about.
#[derive(Clone, Copy)]
pub struct About<'a> {
    /// Its row.
    pub row: &'a OccRow,
    /// The descriptor of its instance.
    pub vnfd: &'a Vnfd,
}

/// What a page shows: the stories of the instances that the events are about.
pub struct HistoryPage {
    pub(crate) manager: u32,
    pub(crate) span: Option<Span>,
    pub(crate) events: u64,
    /// In order of their numbers.
    pub(crate) instances: Vec<InstanceStory>,
}

impl Drop for HistoryPage {
    // Written out, so that the proof of a caller calls it and doesn't take the page apart at each of its ends.
    fn drop(self) {
        let HistoryPage {
            manager: _,
            span: _,
            events: _,
            instances: _,
        } = self;
    }
}

impl HistoryPage {
    /// The page of a manager, with no event; takes no memory.
    pub fn new(alloc: Global, manager: u32) -> HistoryPage {
        HistoryPage {
            manager,
            span: None,
            events: 0,
            instances: Vec::new(alloc),
        }
    }

    /// Takes the next of the events that the page shows, which is the `place`-th of the journal, with the occurrence that it
    /// is about, where it is about one. An event about an occurrence that isn't handed in counts for the span of time alone,
    /// and so does one about an occurrence whose asking wasn't handed in before.
    ///
    /// The time is that of two look-ups, and of copying the names in the event. After an error the page is of no further use.
    pub fn follow(
        &mut self,
        alloc: Global,
        place: u64,
        event: &Event,
        about: Option<About<'_>>,
    ) -> Result<(), AllocError> {
        self.span = Some(Span::with(self.span, event.moment));
        self.events = self.events.saturating_add(1);
        match &event.kind {
            EventKind::Created {
                instance,
                vnfd,
                name,
                text: _,
            } => self.create(alloc, *instance, event.moment, vnfd, name),
            EventKind::Deleted { instance } => self.delete(alloc, *instance, event.moment),
            _ => match about {
                Some(about) => self.follow_operation(alloc, place, event, about),
                None => Ok(()),
            },
        }
    }

    /// An instance was created.
    fn create(
        &mut self,
        alloc: Global,
        number: u64,
        moment: Moment,
        vnfd: &Name,
        name: &Option<Name>,
    ) -> Result<(), AllocError> {
        let place = self.place_for(alloc, number)?;
        match self.instances.get_mut(place) {
            Some(story) => {
                story.created = Some(moment);
                story.vnfd.push_str(vnfd.as_str())?;
                put_name(&mut story.name, name)
            }
            None => Ok(()),
        }
    }

    /// An instance was deleted.
    fn delete(&mut self, alloc: Global, number: u64, moment: Moment) -> Result<(), AllocError> {
        let place = self.place_for(alloc, number)?;
        match self.instances.get_mut(place) {
            Some(story) => {
                story.deleted = Some(moment);
                Ok(())
            }
            None => Ok(()),
        }
    }

    /// An event about an occurrence.
    fn follow_operation(
        &mut self,
        alloc: Global,
        place: u64,
        event: &Event,
        about: About<'_>,
    ) -> Result<(), AllocError> {
        let instance = self.place_for(alloc, about.row.instance)?;
        match self.instances.get_mut(instance) {
            Some(story) => story.follow(alloc, place, event, about),
            None => Ok(()),
        }
    }

    /// The place of an instance's story, which begins where there is none yet.
    fn place_for(&mut self, alloc: Global, number: u64) -> Result<usize, AllocError> {
        let place = instance_place(self.instances.as_slice(), number);
        if !has_instance(self.instances.as_slice(), place, number) {
            self.instances
                .insert(place, InstanceStory::new(alloc, number))?;
        }
        Ok(place)
    }
}

/// Puts a name last, where there is one.
fn put_name(text: &mut String, name: &Option<Name>) -> Result<(), AllocError> {
    match name {
        Some(name) => text.push_str(name.as_str()),
        None => Ok(()),
    }
}

/// How many of these stories, which are in order of their numbers, are of a lower number.
fn instance_place(stories: &[InstanceStory], number: u64) -> usize
    ensures { result ≤ length stories.now }
{
    let (mut low, mut high) = (0, stories.len());
    'halves: while low < high {
        let middle = low + (high - low) / 2;
        if stories[middle].number < number {
            low = middle + 1;
        } else {
            high = middle;
        }
    }
    low
}

/// Whether the story at this place is of this number.
fn has_instance(stories: &[InstanceStory], place: usize, number: u64) -> bool {
    match stories.get(place) {
        Some(story) => story.number == number,
        None => false,
    }
}

/// How many of these stories, which are in order of their numbers, are of a lower number.
fn operation_place(stories: &[OperationStory], occ: u64) -> usize
    ensures { result ≤ length stories.now }
{
    let (mut low, mut high) = (0, stories.len());
    'halves: while low < high {
        let middle = low + (high - low) / 2;
        if stories[middle].occ < occ {
            low = middle + 1;
        } else {
            high = middle;
        }
    }
    low
}

/// The number of the occurrence that an event is about.
fn occurrence_of(kind: &EventKind) -> Option<u64>
    ensures { result ≡ occurrence_of kind.now }
{
    match kind {
        EventKind::Asked(operation) => Some(operation.occ),
        EventKind::GrantTried { occ, answer: _ } => Some(*occ),
        EventKind::Granted {
            occ,
            grant: _,
            places: _,
            spots: _,
        } => Some(*occ),
        EventKind::Denied { occ } => Some(*occ),
        EventKind::Intent(tag) => Some(tag.occ),
        EventKind::CallFailed(tag) => Some(tag.occ),
        EventKind::Settled { tag, outcome: _ } => Some(tag.occ),
        EventKind::Moved { occ, to: _ } => Some(*occ),
        EventKind::CancelAsked { occ, mode: _ } => Some(*occ),
        _ => None,
    }
}

impl InstanceStory {
    /// An event about one of its operations.
    fn follow(
        &mut self,
        alloc: Global,
        place: u64,
        event: &Event,
        about: About<'_>,
    ) -> Result<(), AllocError> {
        match &event.kind {
            EventKind::Asked(operation) => self.ask(alloc, event.moment, operation)?,
            _ => {}
        }
        let Some(occ) = occurrence_of(&event.kind) else {
            return Ok(());
        };
        let at = operation_place(self.operations.as_slice(), occ);
        match self.operations.get_mut(at) {
            Some(story) => story.follow_own(alloc, occ, place, event, about),
            None => Ok(()),
        }
    }

    /// An operation was asked for.
    fn ask(
        &mut self,
        alloc: Global,
        moment: Moment,
        operation: &Operation,
    ) -> Result<(), AllocError> {
        let place = operation_place(self.operations.as_slice(), operation.occ);
        let story = OperationStory::new(alloc, moment, operation)?;
        self.operations.insert(place, story)?;
        Ok(())
    }
}

/// The kind of an operation.
fn kind_of(ask: &Ask) -> OpKind
    ensures { result ≡ kind_of ask.now }
{
    match ask {
        Ask::Instantiate {
            flavour: _,
            level: _,
        } => OpKind::Instantiate,
        Ask::Scale {
            way: _,
            aspect: _,
            steps: _,
        } => OpKind::Scale,
        Ask::ScaleToLevel(_) => OpKind::ScaleToLevel,
        Ask::Heal { cause: _, named: _ } => OpKind::Heal,
        Ask::Operate {
            started: _,
            stop: _,
        } => OpKind::Operate,
        Ask::Terminate {
            mode: _,
            timeout: _,
        } => OpKind::Terminate,
    }
}

/// What came of a grant request that led to no grant.
fn stage_of_try(answer: &GrantTry) -> Stage
    ensures { result ≡ stage_of_try answer.now }
{
    match answer {
        GrantTry::Later(_) => Stage::GrantLater,
        GrantTry::Trouble => Stage::GrantTrouble,
        GrantTry::NotCovering => Stage::GrantNotCovering,
    }
}

/// What an event says of its operation besides attempts.
fn stage_of(kind: &EventKind) -> Option<Stage>
    ensures { result ≡ stage_of kind.now }
{
    match kind {
        EventKind::Asked(_) => Some(Stage::Moved(OpState::Starting)),
        EventKind::GrantTried { occ: _, answer } => Some(stage_of_try(answer)),
        EventKind::Granted {
            occ: _,
            grant: _,
            places: _,
            spots: _,
        } => Some(Stage::Granted),
        EventKind::Denied { occ: _ } => Some(Stage::Denied),
        EventKind::CancelAsked { occ: _, mode } => Some(Stage::CancelAsked(*mode)),
        EventKind::Moved { occ: _, to } => Some(Stage::Moved(*to)),
        _ => None,
    }
}

/// How an attempt ended.
fn fate_of(outcome: &Outcome) -> Fate
    ensures { result ≡ fate_of outcome.now }
{
    match outcome {
        Outcome::Done(_) => Fate::Done,
        Outcome::Broken(code) => Fate::Broken(*code),
        Outcome::Aborted => Fate::Aborted,
        Outcome::NotBegun => Fate::NotBegun,
    }
}

impl OperationStory {
    /// The story of an operation that was asked for at this moment.
    fn new(
        alloc: Global,
        moment: Moment,
        operation: &Operation,
    ) -> Result<OperationStory, AllocError> {
        let latest = vec![in alloc; 0usize; operation.changes.len()]?;
        Ok(OperationStory {
            occ: operation.occ,
            kind: kind_of(&operation.ask),
            role: operation.role,
            asked: moment,
            state: OpState::Starting,
            entered: moment,
            last: moment,
            cause: None,
            steps: Vec::new(alloc),
            attempts: Vec::new(alloc),
            latest,
        })
    }

    /// An event about the occurrence of this number, where the story is of it.
    fn follow_own(
        &mut self,
        alloc: Global,
        occ: u64,
        place: u64,
        event: &Event,
        about: About<'_>,
    ) -> Result<(), AllocError> {
        if self.occ != occ {
            return Ok(());
        }
        self.last = event.moment;
        self.cause = about.row.cause;
        match &event.kind {
            EventKind::Intent(tag) => self.begin(alloc, place, event.moment, tag, about),
            EventKind::CallFailed(tag) => {
                self.end(event.moment, tag, Fate::CallFailed);
                Ok(())
            }
            EventKind::Settled { tag, outcome } => {
                self.end(event.moment, tag, fate_of(outcome));
                Ok(())
            }
            kind => self.step(place, event.moment, kind),
        }
    }

    /// An event that is about no attempt.
    fn step(&mut self, place: u64, moment: Moment, kind: &EventKind) -> Result<(), AllocError>
        ensures steps { OnOk result (self.new.steps.items ≡ self.old.steps.items ++ steps_of place moment (stage_of kind.now)) }
        ensures state { OnOk result (self.new.state ≡ state_after (stage_of kind.now) self.old.state) }
    {
        match stage_of(kind) {
            Some(stage) => self.enter(place, moment, stage),
            None => Ok(()),
        }
    }

    /// Something happened to the operation besides attempts.
    fn enter(&mut self, place: u64, moment: Moment, stage: Stage) -> Result<(), AllocError>
        ensures steps { OnOk result (self.new.steps.items ≡ self.old.steps.items ++ steps_of place moment (Some stage)) }
        ensures state { OnOk result (self.new.state ≡ state_after (Some stage) self.old.state) }
    {
        match stage {
            Stage::Moved(to) => {
                self.state = to;
                self.entered = moment;
            }
            _ => {}
        }
        self.steps.push(Step {
            place,
            moment,
            stage,
        })?;
        Ok(())
    }

    /// An attempt begins.
    fn begin(
        &mut self,
        alloc: Global,
        place: u64,
        moment: Moment,
        tag: &Tag,
        about: About<'_>,
    ) -> Result<(), AllocError> {
        let changes = about.row.changes.as_slice();
        let what = change_text(alloc, about.vnfd, changes.get(usize::from(tag.change)))?;
        let number = self.attempts.len();
        self.attempts.push(Attempt {
            change: tag.change,
            number: tag.attempt,
            way: tag.way,
            what,
            place,
            begun: moment,
            ended: moment,
            fate: Fate::Open,
        })?;
        match self.latest.get_mut(usize::from(tag.change)) {
            Some(latest) => *latest = number,
            None => {}
        }
        Ok(())
    }

    /// An attempt ends, or the call that was to begin it failed.
    fn end(&mut self, moment: Moment, tag: &Tag, fate: Fate) {
        match self.latest.get(usize::from(tag.change)) {
            Some(latest) => {
                let latest = *latest;
                end_at(&mut self.attempts, latest, moment, tag, fate);
            }
            None => {}
        }
    }
}

/// The attempt at this place ends, where it is the one of this tag.
fn end_at(attempts: &mut Vec<Attempt>, place: usize, moment: Moment, tag: &Tag, fate: Fate) {
    match attempts.get_mut(place) {
        Some(attempt) => {
            if attempt.change == tag.change && attempt.number == tag.attempt {
                attempt.ended = moment;
                attempt.fate = fate;
            }
        }
        None => {}
    }
}
