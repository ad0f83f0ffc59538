// How far ranges and sensitivities may go, and how many variables there may be.

// How far a sensitivity may go.
pub const SENSITIVITY_BOUND: u64 = 1_000_000_000;

// How far from 0 a number's value may lie.
pub const NUMBER_BOUND: u64 = 1_000_000_000_000;

// The variables in scope at most: each is named by a form around the one that is typed, and forms nest no deeper.
pub const MAX_VARS: usize = 16;
