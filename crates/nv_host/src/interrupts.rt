//! The interrupts that are pending, which a host delivers to its guests.

ghost use Rattle.std.specs.Prelude.{◌≡◌, option_map, slice_get};
ghost use Rattle.nv_model.specs.Controller.{completion_queue, pending};

use crate::host_mediator::HostMediator;
use nv_model::limits::QUEUE_COUNT;
use nv_vctl::CompletionQueue;

impl HostMediator {
    /// The interrupt vectors that are pending for the guest of that number: at each place the vector that the completion queue of this number raises, where
    /// it holds completions that the guest has not acknowledged and its interrupts are enabled. `None` where there is no such guest. Nothing is allocated.
    pub fn pending(&self, guest: u8) -> Option<[Option<u16>; QUEUE_COUNT]>
        ensures { result ≡ option_map pending (slice_get self.now.side.controllers guest) }
    {
        self.front.pending(guest)
    }

    /// Where the completion queue of that number stands of the guest of the other, where one is there; `None` where there is no such guest.
    pub fn completion_queue(&self, guest: u8, queue: usize) -> Option<Option<CompletionQueue>>
        ensures { result ≡ option_map (λ c. completion_queue c queue) (slice_get self.now.side.controllers guest) }
    {
        self.front.completion_queue(guest, queue)
    }
}
