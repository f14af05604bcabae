#![tactic(auto)]

// The layout of mode sheets: definitions and theorems, and no code.
