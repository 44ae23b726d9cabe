// The walk that lists the keys of the reachable bases.

// What the walk has met: whether a node was met twice, how many nodes are not yet met, the keys listed, and the nodes seen.
// `twice` stands beside them, and no Option round them: `keeps` of runs reads the nodes seen in any state, met twice or not.
// The nodes seen are an array: fixed memory, and no heap.
#[derive(Clone, Copy)]
pub struct Met {
    pub twice: bool,
    pub left: u8,
    pub keys: u64,
    pub seen: [bool; 128],
}
