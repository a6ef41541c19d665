#![tactic(auto)]

// The requirement's checked values, proved in one table: specs/Checked.antt. There is no code here.
