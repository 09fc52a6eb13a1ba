//! What the program is handed of the machine that it runs on.
ghost use Rattle.vnfm_program.specs.Program.{Machine};

use host_calls::HostFiles;
use outside_edges::{Jobs, NoJobs, RealSite};
use site_traits::{Clock, Courier, Orchestrator, Sink};
use standard_streams::NullDevice;
use std::marker::Model;

/// What the program works with beside its words and its mouth.
#[derive(Drop)]
pub struct Machine<
    N: NullDevice,
    H: HostFiles,
    J: Jobs<H::File> + Drop,
    Q: Orchestrator,
    C: Courier,
    K: Clock,
    L: Sink,
    E: Sink,
> {
    /// What opens the null device.
    pub device: N,
    /// What opens files.
    pub files: H,
    /// The journal's site, on which no file was opened yet, with the infrastructure's jobs.
    pub site: RealSite<H::File, J>,
    /// The site of the file to which a journal is migrated, on which no file was opened yet. No job is begun there.
    pub spare: RealSite<H::File, NoJobs>,
    /// The orchestrator.
    pub orchestrator: Q,
    /// The courier.
    pub courier: C,
    /// The clock.
    pub clock: K,
    /// Standard output.
    pub lines: L,
    /// Standard error.
    pub errors: E,
}

impl<
    N: NullDevice,
    H: HostFiles,
    J: Jobs<H::File> + Drop,
    Q: Orchestrator,
    C: Courier,
    K: Clock,
    L: Sink,
    E: Sink,
> Model for Machine<N, H, J, Q, C, K, L, E> {
    ghost use Rattle.notify_outbox.specs.Lent.{carrier};
    ghost use Rattle.vnfm_commands.specs.Ending.{output_of};
    ghost use Rattle.vnfm_program.specs.Program.{Machine};

    ghost Value = { Machine N H H.File J };

    ghost view = { λ m. record {
      device = m.device;
      files = m.files;
      site = m.site;
      spare = m.spare;
      orchestrator = record { state = Q.state m.orchestrator; counts = Q.counts m.orchestrator };
      courier = carrier (C.state m.courier) (C.counts m.courier);
      clock = K.state m.clock;
      lines = output_of L.state L.counts m.lines;
      errors = output_of E.state E.counts m.errors;
    } };

    ghost invariant = { λ m. Unit {0} };
}
