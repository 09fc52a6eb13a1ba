//! The files that the words name, and the sites on which they are opened.
ghost use Rattle.std.specs.Prelude.{◌≡◌, OnErr, OnOk};
ghost use Rattle.vnfm_program.specs.Opening.{OpensFiles, StarvesOpening, folder_of};

use command_line::{Command, Settings};
use host_calls::HostFiles;
use outside_edges::{FolderSync, Jobs, NoJobs, RealSite};
use standard_streams::HeldStreams;
use std::alloc::AllocError;

/// Opens the file of the journal on `site`, and behind it, for `migrate`, the file that the journal goes to on `spare`.
///
/// Its one refusal is want of memory.
pub fn open_files<H: HostFiles, J: Jobs<H::File> + Drop>(
    files: &mut H,
    streams: &HeldStreams<H::Held>,
    settings: &Settings,
    site: &mut RealSite<H::File, J>,
    spare: &mut RealSite<H::File, NoJobs>,
) -> Result<(), AllocError>
    ensures opened { OnOk result (OpensFiles (record {
      tells = H.tells;
      file_tells = H.File.tells;
      places = H.state;
      state = H.File.state;
      hold = H.File.hold;
    })
        settings.now (record { files = files.old; site = site.old; spare = spare.old })
        (record { files = files.new; site = site.new; spare = spare.new })) }
    ensures starved { OnErr result (StarvesOpening (record {
      tells = H.tells;
      file_tells = H.File.tells;
      places = H.state;
      state = H.File.state;
      hold = H.File.hold;
    })
        settings.now (record { files = files.old; site = site.old; spare = spare.old })
        (record { files = files.new; site = site.new; spare = spare.new })) }
{
    site.open(
        files,
        streams,
        settings.journal.as_str(),
        folder_of(settings.command),
    )?;
    match settings.command {
        Command::Migrate => spare.open(files, streams, settings.to.as_str(), FolderSync::Always),
        Command::Init
        | Command::Onboard
        | Command::Once
        | Command::Serve
        | Command::Check
        | Command::Trial => Ok(()),
    }
}

/// When the folder of the journal's file is synced. `init` says that the journal is made, so its name is on the disk.
/// The other commands open what is there.
fn folder_of(command: Command) -> FolderSync
    ensures { result ≡ folder_of command }
{
    match command {
        Command::Init => FolderSync::Always,
        Command::Onboard
        | Command::Once
        | Command::Serve
        | Command::Check
        | Command::Migrate
        | Command::Trial => FolderSync::WhereMade,
    }
}
