#![tactic(auto)]

// The number of cases that the proofs state.
pub fn count() -> u64 {
    170
}
