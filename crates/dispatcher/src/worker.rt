//! Workers, before they run and after they have stopped.
ghost use Rattle.std.specs.Prelude.{◌≡◌, ◌≤◌, [], map, length};
ghost use Rattle.std.specs.Vec.{vec_capacity};
ghost use Rattle.dispatcher.specs.Reply.{answered, region_of};
ghost use Rattle.dispatcher.specs.declared.stop.Stop.TheVariants.{OutOfMemory, NotRun};

use crate::stop::Stop;
use floors::Floor;
use job_queue::JobLine;
use job_types::Reply;
use std::alloc::Global;

/// A worker that has done nothing: a pass of the queue and a station of the allocator. Only
/// `Shop::open` makes one.
pub struct Worker<L: JobLine, F: Floor> {
    // The handle by which it takes jobs.
    pub(crate) pass: L::Pass,
    // The handle by which it takes blocks.
    pub(crate) station: F::Station,
    pub ghost none_taken: { (L.pass_record pass).taken ≡ [] },
    pub ghost none_granted: { F.grants station ≡ [] },
}

/// A worker that has stopped, with its replies. They are the replies to all jobs that its pass ever
/// took, in order. These jobs ran on all blocks that its station was ever granted, in order.
///
/// Only `dispatch`, `dispatch_some` and `Worker::stand_down` make one.
pub struct WorkerEnd<L: JobLine, F: Floor> {
    pub(crate) pass: L::Pass,
    // Its station, which holds no block.
    pub(crate) station: F::Station,
    // Its replies, in the order in which it took their jobs.
    pub(crate) replies: Vec<Reply>,
    pub(crate) stop: Stop,
    pub ghost answers: { (L.pass_record pass).taken ≡ map answered replies.items },
    pub ghost regions: { F.grants station ≡ map region_of replies.items },
    pub ghost no_room: { stop ≡ OutOfMemory → vec_capacity replies ≤ length replies.items },
    pub ghost not_run: { stop ≡ NotRun → replies.items ≡ [] },
}

impl<L: JobLine, F: Floor> Worker<L, F> {
    ghost use Rattle.dispatcher.specs.Shop.{ShopId};
    ghost use Rattle.dispatcher.specs.Members.{IsWorkerOf, IsEndOf, replies_of, stop_of};

    /// Ends a worker that never ran.
    pub fn stand_down(self, alloc: Global) -> WorkerEnd<L, F>
        ensures of_shop { (shop : ShopId) → IsWorkerOf shop self → IsEndOf shop result }
        ensures replies { replies_of result ≡ [] }
        ensures stop { stop_of result ≡ Stop.NotRun }
    {
        let Worker { pass, station } = self;
        WorkerEnd {
            pass,
            station,
            replies: Vec::new(alloc),
            stop: Stop::NotRun,
        }
    }
}

impl<L: JobLine, F: Floor> WorkerEnd<L, F> {
    ghost use Rattle.dispatcher.specs.Members.{replies_of, stop_of};

    /// Returns its replies, in the order in which it took their jobs.
    pub fn replies(&self) -> &[Reply]
        ensures { result.now ≡ replies_of self.now }
    {
        &self.replies
    }

    /// Returns why it has stopped.
    pub fn stop(&self) -> Stop
        ensures { result ≡ stop_of self.now }
    {
        self.stop
    }
}
