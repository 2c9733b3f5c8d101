ghost use Rattle.std.specs.Prelude.{◌≡◌, slice_get, option_map};
ghost use Rattle.ticklab_trace.specs.Shown.{shown};

use base::{Act, Event};

/// What others see of the steps after the first so many events.
pub fn act_after(events: &[Event], count: usize) -> Option<Act>
    ensures { result ≡ option_map (λ event. event.act) (slice_get events.now count) }
{
    match events.get(count) {
        Some(event) => Some(event.act),
        None => None,
    }
}

/// The order of the processes, where this step may have changed it.
pub fn shown<X: Copy>(act: Option<Act>, order: X) -> Option<X>
    ensures { result ≡ shown act order }
{
    match act {
        Some(Act::Stamp) => Some(order),
        Some(Act::Clear) => Some(order),
        _ => None,
    }
}
