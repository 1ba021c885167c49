// Links: which event depends at once on which.
use crate::bounds::LINKS;
use crate::events::Event;
use arrayvec::ArrayVec;

// An event, and the event that it depends on.
#[derive(Clone, Copy, Default)]
pub struct Link {
    pub event: Event,
    pub on: Event,
}

// Links one after the other, as many as there can be.
pub type LinkVec = ArrayVec<Link, LINKS>;
