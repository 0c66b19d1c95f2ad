//! How lanes are closed.
ghost use Rattle.std.specs.Prelude.{◌≡◌, IfNone, IfSome};
ghost use Rattle.cubejobs_lanes.specs.Closing.{HasClosed};
ghost use Rattle.cubejobs_lanes.specs.Stages.{IsOpen, IsClosed};

use crate::kept::KeptNote;
use crate::owner::Owner;
use crate::stage::Stage;

impl Owner {
    // Closes all lanes. Returns how many jobs they have accepted, unless they were closed.
    pub(crate) fn close(self) -> (Owner, Option<u64>)
        ensures is_open { IfSome result.1 (λ _. IsOpen self.stage) }
        ensures closed { IfSome result.1 (λ total. HasClosed total self result.0) }
        ensures was_closed { IfNone result.1 (IsClosed self.stage) }
        ensures unchanged { IfNone result.1 (result.0 ≡ self) }
    {
        if let Stage::Closed(_) = &self.stage {
            return (self, None);
        }
        let Owner {
            common,
            stage,
            lanes,
            workers,
        } = self;
        let Stage::Open(members) = stage else {
            unreachable!()
        };
        let note = common.lanes.close(members.into_closer());
        let total = note.number();
        let owner = Owner {
            common,
            stage: Stage::Closed(KeptNote { note }),
            lanes,
            workers,
        };
        (owner, Some(total))
    }
}
