ghost use Rattle.std.specs.Prelude.{◌≡◌};
ghost use Rattle.trace_lines.specs.Exact.{ReadsExactly};
ghost use Rattle.trace_lines.specs.inner.Reading.{event_of};

use crate::calls::read_call;
use crate::ends::{read_ask, read_end, read_return};
use crate::event::Event;
use crate::pieces::after;

/// The event whose line a text is, without the line feed that ends the line.
pub fn read_event(text: &[u8]) -> Option<Event>
    ensures exact { ReadsExactly result text.now }
{
    read_text(text)
}

/// The event by the marks at the front of a text.
#[tactic(auto, unfolding(crate::specs::inner::Reading::event_of))]
fn read_text(text: &[u8]) -> Option<Event>
    ensures { result ≡ event_of text.now }
{
    if let Some(call) = after(text, "call ") {
        Some(Event::Called(read_call(call)?))
    } else if let Some(result) = after(text, "ret") {
        read_return(result)
    } else if let Some(ask) = after(text, "ask ") {
        read_ask(ask)
    } else {
        Some(Event::Ended(read_end(text)?))
    }
}
