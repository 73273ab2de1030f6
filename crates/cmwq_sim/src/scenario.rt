/// A queue of a scenario.
#[derive(Clone, Copy, Debug, PartialEq, Eq)]
pub struct SimQueue {
    pub max_active: u16,
    pub intensive: bool,
}

/// An item of a scenario: its queue, and its burns and sleeps in turn.
#[derive(Debug, Drop)]
pub struct SimItem {
    pub queue: u8,
    pub ms: Vec<u16>,
}

/// Items that are queued at 0, one after the other.
#[derive(Debug, Drop)]
pub struct Scenario {
    pub queues: Vec<SimQueue>,
    pub items: Vec<SimItem>,
}

/// What a line tells.
#[derive(Clone, Copy, Debug, PartialEq, Eq)]
pub enum LineKind {
    Starts,
    Sleeps,
    WakesBurns,
    WakesEnds,
    Ends,
}

/// A line of the table.
#[derive(Debug, Drop)]
pub struct TableLine {
    pub at: u32,
    pub kind: LineKind,
    pub items: Vec<u8>,
}
