// An arrow of a model's table: the states that it joins, and the events that it admits.
ghost use Rattle.std.specs.Prelude.{◌≡◌, Decides};
ghost use Rattle.models.specs.Sent.{admits, Agrees};

use sets::Event;

// The mask has the signals that the arrow looks at, and the value those of them that have to be on.
#[derive(Clone, Copy)]
pub struct Arrow {
    pub from: u8,
    pub to: u8,
    pub mask: Event,
    pub value: Event,
}

impl Arrow {
    // Whether the arrow admits the event. It does exactly if the value is inside the mask and every signal of the mask is
    // on in the event as the value has it; so an arrow with a value outside its mask admits nothing.
    pub fn admits(self, event: Event) -> bool
        ensures value { result ≡ admits self event }
        ensures signals { Decides result (Agrees self event) }
    {
        is_admitted(self, event)
    }
}

// Whether the event AND the mask equals the value.
fn is_admitted(arrow: Arrow, event: Event) -> bool
    ensures { result ≡ admits arrow event }
{
    event & arrow.mask == arrow.value
}
