// What a row of the phase table reads, and what it changes.
use crate::state::{Place, Settings, Thread};

// What the step of thread `me` reads: its registers, the counts, and the places that its registers name.
// `reached` is the place of the node that a walking row goes to. A register that is none has place 0, which no row looks at.
#[derive(Clone, Copy)]
pub struct View {
    pub me: u8,
    pub thread: Thread,
    pub settings: Settings,
    pub root: u8,
    pub made: u8,
    pub begun: u32,
    pub committed: u32,
    pub prev: Place,
    pub base: Place,
    pub walk: Place,
    pub neighbour: Place,
    pub grandparent: Place,
    pub own: Place,
    pub reached: Place,
}

// A place to be stored at a node number.
#[derive(Clone, Copy)]
pub struct Store {
    pub at: u8,
    pub place: Place,
}

// What a step changes: the thread, the root, the counts and at most three places.
#[derive(Clone, Copy)]
pub struct Plan {
    pub thread: Thread,
    pub root: u8,
    pub made: u8,
    pub committed: u32,
    pub first: Option<Store>,
    pub second: Option<Store>,
    pub third: Option<Store>,
}
