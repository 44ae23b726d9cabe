// The records of the state. A node register is a node number, or 128 for none. A lock holder is a thread number, or 8 for none.
// Phase, operation, registers and holders stay numbers: a caller may hold any, `in_range` says which are right, and refusal 7 answers for the
// others; `plan_of` decides over phase numbers. The pool stays an array and a node a number: fixed memory, and no heap.

// The settings of a run. `low` is how far min lies below 0.
#[derive(Clone, Copy)]
pub struct Settings {
    pub succ: u32,
    pub fail: u32,
    pub low: u32,
    pub max: u32,
}

// A lock: who holds it, and the statistics, held up by 2,000,000 so that they are never below 0.
#[derive(Clone, Copy)]
pub struct Lock {
    pub holder: u8,
    pub statistics: u32,
}

// What tells a base and a route apart.
#[derive(Clone, Copy)]
pub enum Body {
    Base { keys: u64 },
    Route { key: u8, left: u8, right: u8 },
}

// A place of the pool: a node that is made, or a free, invalid, empty base.
#[derive(Clone, Copy)]
pub struct Place {
    pub lock: Lock,
    pub valid: bool,
    pub body: Body,
}

// A thread's registers. `side` is the kept far side of a join: true is right.
#[derive(Clone, Copy)]
pub struct Thread {
    pub phase: u8,
    pub operation: u8,
    pub key: u8,
    pub prev: u8,
    pub base: u8,
    pub walk: u8,
    pub neighbour: u8,
    pub grandparent: u8,
    pub made: u8,
    pub answer: u8,
    pub commit: u32,
    pub side: bool,
}

#[derive(Clone, Copy)]
pub struct State {
    pub root: u8,
    pub made: u8,
    pub begun: u32,
    pub committed: u32,
    pub settings: Settings,
    pub places: [Place; 128],
    pub threads: [Thread; 8],
}
