#![tactic(auto)]

// Acquisition as a whole: demand 3, which no single operation's crate can state. There is no code here.
