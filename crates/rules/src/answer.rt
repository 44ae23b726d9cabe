// What the calls answer.

// Why a call is refused. `refusal as u8` is its number in document 01's table.
#[derive(Clone, Copy, PartialEq, Eq, Debug)]
pub enum Refusal {
    NotOfTheForms = 1,
    BadSettings = 2,
    NoThread = 3,
    NoKey = 4,
    Busy = 5,
    Idle = 6,
    OutOfRange = 7,
    Stuck = 8,
    LittleRoom = 9,
    BadCount = 10,
    AllBegun = 11,
    TooLong = 12,
}

// An accepted step goes on to a phase, or ends the operation with its answer and commit number.
#[derive(Clone, Copy, PartialEq, Eq, Debug)]
pub enum StepReply {
    Goes { phase: u8 },
    Ends { answer: u8, commit: u32 },
}

// Accepted counted steps: how many were taken, and the phase then, or what the operation ended with.
#[derive(Clone, Copy, PartialEq, Eq, Debug)]
pub enum RunReply {
    Stops { taken: u32, phase: u8 },
    Ends { taken: u32, answer: u8, commit: u32 },
}
