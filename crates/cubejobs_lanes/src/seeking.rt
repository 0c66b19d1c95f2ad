//! A worker of lanes finds a job, or lies down.
ghost use Rattle.std.specs.Prelude.{ℕ, ◌≡◌, ◌<◌, false, true, Some, IfSome};
ghost use Rattle.std.specs.Arc.{arc_value};
ghost use Rattle.lanes.specs.declared.finder.At.TheVariants.{Parked as AtParked};
ghost use Rattle.lanes.specs.Deeds.{and_given, given_in, has_call};
ghost use Rattle.lanes.specs.Phases.{IsAwake};
ghost use Rattle.cubejobs_lanes.specs.Sleeps.{Seeks};

use crate::sleeper_side::{KeptJob, SleeperSide};
use crate::tries::TRIES;
use lanes::{At, Finding, Found};

impl SleeperSide {
    // Goes on to wake another worker. Returns the job that it keeps once that is over.
    fn wake_on(&mut self, one: KeptJob) -> Finding
        requires { self.old.kept ≡ Some one }
        ensures found { (from : ℕ) → Seeks from self.old self.new result.found }
        ensures woken { IfSome result.woken (λ number.
            number < (arc_value self.old.common).lanes.plan.sizes.workers) }
        ensures given { given_in self.new.finder.deeds
            ≡ and_given result.woken (given_in self.old.finder.deeds) }
        ensures calls { has_call self.old.finder.deeds ≡ false
            → has_call self.new.finder.deeds ≡ false }
    {
        let woken = self.common.lanes.wake_more(&mut self.finder, TRIES);
        if self.finder.at() != At::Idle {
            return Finding {
                found: Found::Again,
                woken,
            };
        }
        self.kept = None;
        let KeptJob { lane, job, left } = one;
        Finding {
            found: Found::Job(lane, job, left),
            woken,
        }
    }

    // Finds a job, or lets the worker lie down. It keeps the job while it has still to wake another
    // worker.
    pub(crate) fn find(&mut self, from: u32) -> Finding
        requires { from < (arc_value self.old.common).lanes.plan.sizes.lanes }
        ensures found { Seeks from self.old self.new result.found }
        ensures woken { IfSome result.woken (λ number.
            number < (arc_value self.old.common).lanes.plan.sizes.workers) }
        ensures given { given_in self.new.finder.deeds
            ≡ and_given result.woken (given_in self.old.finder.deeds) }
        ensures calls { has_call self.old.finder.deeds ≡ false
            → has_call self.new.finder.deeds ≡ false }
    {
        if let Some(one) = self.kept {
            return self.wake_on(one);
        }
        let finding = self.common.lanes.find(&mut self.finder, from, TRIES);
        let Found::Job(lane, job, left) = finding.found else {
            return finding;
        };
        if self.finder.at() == At::Idle {
            return finding;
        }
        self.kept = Some(KeptJob { lane, job, left });
        Finding {
            found: Found::Again,
            woken: finding.woken,
        }
    }

    // Takes the token of a worker that parks. Returns whether it is awake then.
    pub(crate) fn awake(&mut self) -> bool
        ensures common { arc_value self.new.common ≡ arc_value self.old.common }
        ensures known { self.new.finder.known ≡ self.old.finder.known }
        ensures kept { self.new.kept ≡ self.old.kept }
        ensures deeds { self.new.finder.deeds ≡ self.old.finder.deeds }
        ensures parks { result ≡ false → self.new.finder.at ≡ AtParked }
        ensures awake { result ≡ true → IsAwake self.new.finder.at }
    {
        self.common.lanes.awake(&mut self.finder)
    }
}
