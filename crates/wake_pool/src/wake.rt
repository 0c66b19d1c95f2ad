ghost use Rattle.std.specs.Prelude.{ℕ, ◌<◌, List};
ghost use Rattle.wake_pool.specs.Law.{IsServed};
ghost use Rattle.wake_pool.specs.Schedule.{apply_all, initial};

use crate::act::WakeAct;

/// Holds after every list of acts, the newest first: no job and no call waits while all threads
/// that could serve it sleep (`IsServed`). The number of workers, lanes and words is any, and so is
/// the word of each worker's bit.
pub fn every_schedule_is_served()
    ensures { (workers lanes words : ℕ) (word : ℕ → ℕ) → ((t : ℕ) → t < workers → word t < words)
        → (acts : List WakeAct) → IsServed (apply_all acts (initial workers lanes words word)) }
{}
