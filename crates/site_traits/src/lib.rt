//! The outside as the manager sees it: six traits, each with what an object of its kind tells and how often it failed.
#![tactic(auto)]

mod clock;
mod courier;
mod door;
mod heard;
mod jobs;
mod log;
mod mem_book;
mod mem_conn;
mod mem_courier;
mod mem_door;
mod mem_file;
mod mem_jobs;
mod mem_orchestrator;
mod mem_sink;
mod mem_site;
mod orchestrator;
mod past;
mod set_clock;
mod sink;
mod site;

pub use clock::Clock;
pub use courier::{Courier, PostAnswer};
pub use door::{Door, NextAnswer, ReadAnswer, WriteAnswer};
pub use heard::{HEARD_MAX, Heard};
pub use jobs::{AbortAnswer, BeginAnswer, LookAnswer, Phase};
pub use log::{BYTES, CALLS, Entry, Log};
pub use mem_conn::MemConn;
pub use mem_courier::{MemCourier, PostMark, PostPlan};
pub use mem_door::{DoorPlan, MemDoor};
pub use mem_file::Choice;
pub use mem_jobs::{Arrival, Found, JobEnd, JobPlan};
pub use mem_orchestrator::{GrantPlan, MemOrchestrator};
pub use mem_sink::MemSink;
pub use mem_site::{MemSite, SitePlan};
pub use orchestrator::{Call, Orchestrator};
pub use past::SiteCall;
pub use set_clock::SetClock;
pub use sink::{Sink, SinkFailed};
pub use site::{DiskFailed, Site};
