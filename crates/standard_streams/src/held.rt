//! The numbers of the standard streams, held.
ghost use Rattle.standard_streams.specs.Numbers.{Holds};

use crate::null_device::NullDevice;
use std::io;

/// Three files, of which those that were opened where a standard stream was closed stand in its place until this is
/// dropped.
#[derive(Drop)]
pub struct HeldStreams<T: Drop> {
    first: T,
    second: T,
    third: T,
}

/// Opens the null device three times. From Ok on the numbers of the three standard streams are taken, so that no file
/// that is opened later gets one of them. A stream that was closed is then at its end where it is read, and fails where
/// it is written.
///
/// Refusals: the fault of an opening that failed; what was opened before it is closed again.
pub fn hold_streams<D: NullDevice>(device: &mut D) -> io::Result<HeldStreams<D::Held>>
where
    D::Held: Drop,
    ensures { D.tells → Holds result (D.numbers device.old) (D.numbers device.new) }
{
    let first = device.open()?;
    let second = device.open()?;
    let third = device.open()?;
    Ok(HeldStreams {
        first,
        second,
        third,
    })
}
