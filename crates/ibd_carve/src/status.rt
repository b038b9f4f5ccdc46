//! How a run ended: its exit status, and its line on the standard error.

ghost use Rattle.std.specs.Prelude.{◌≡◌};
ghost use Rattle.ibd_carve.specs.Ends.{status_of_list, status_of_stop};
ghost use Rattle.ibd_carve.specs.Lines.{status_number};

use image_carve::TakeStop;
use image_listing::ListStop;

/// How a run ended.
#[derive(Clone, Copy, Debug, PartialEq, Eq)]
pub enum CarveStatus {
    /// The image was read to its end.
    Done,
    /// The words are none of the forms.
    Usage,
    /// The image couldn't be read.
    SourceFault,
    /// The standard output took no more.
    SinkFault,
    /// The file took no more.
    StoreFault,
    /// Memory ran out.
    Memory,
    /// No page of the space stands in the image. The file wasn't touched.
    Nothing,
}

impl CarveStatus {
    /// The exit status of the process.
    pub fn number(&self) -> u8
        ensures { result ≡ status_number self.now }
    {
        match self {
            CarveStatus::Done => 0,
            CarveStatus::Usage => 1,
            CarveStatus::SourceFault => 5,
            CarveStatus::SinkFault => 6,
            CarveStatus::StoreFault => 7,
            CarveStatus::Memory => 8,
            CarveStatus::Nothing => 17,
        }
    }
}

/// The status of a listing that answered this.
pub(crate) fn status_of_list(answer: Result<(), ListStop>) -> CarveStatus
    ensures { result ≡ status_of_list answer }
{
    match answer {
        Ok(()) => CarveStatus::Done,
        Err(ListStop::Source) => CarveStatus::SourceFault,
        Err(ListStop::Sink) => CarveStatus::SinkFault,
        Err(ListStop::Memory) => CarveStatus::Memory,
    }
}

impl From<TakeStop> for CarveStatus {
    ghost from_gives = { λ stop status. status ≡ status_of_stop stop };

    fn from(stop: TakeStop) -> Self {
        match stop {
            TakeStop::Nothing => CarveStatus::Nothing,
            TakeStop::Source => CarveStatus::SourceFault,
            TakeStop::Store => CarveStatus::StoreFault,
            TakeStop::Memory => CarveStatus::Memory,
        }
    }
}
