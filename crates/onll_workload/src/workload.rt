//! What a workload is made by.

/// A workload: how many threads there are, 1 to 16, how many updates each makes, 1 to 4,096, and the seed of its draws.
#[derive(Clone, Copy, Debug, PartialEq, Eq)]
pub struct Workload {
    pub threads: u64,
    pub updates: u64,
    pub seed: u64,
}
