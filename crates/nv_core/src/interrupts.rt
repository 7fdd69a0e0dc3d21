//! The interrupts that are pending.

ghost use Rattle.std.specs.Prelude.{◌≡◌, option_map, slice_get};
ghost use Rattle.nv_model.specs.Controller.{completion_queue, pending};

use crate::front::Front;
use nv_model::limits::QUEUE_COUNT;
use nv_vctl::CompletionQueue;

impl Front {
    /// The interrupt vectors that are pending for a guest, by the number of the completion queue that raises them; `None` where there is no such guest.
    pub fn pending(&self, guest: u8) -> Option<[Option<u16>; QUEUE_COUNT]>
        ensures { result ≡ option_map pending (slice_get self.now.controllers guest) }
    {
        Some(self.controllers.get(usize::from(guest))?.pending())
    }

    /// A guest's completion queue of that number, where one is there; `None` where there is no such guest.
    pub fn completion_queue(&self, guest: u8, queue: usize) -> Option<Option<CompletionQueue>>
        ensures { result ≡ option_map (λ c. completion_queue c queue) (slice_get self.now.controllers guest) }
    {
        Some(
            self.controllers
                .get(usize::from(guest))?
                .completion_queue(queue),
        )
    }
}
