// Table 3-16 of ARIB STD-B31 compared with the sign register itself: specs/OneRegister.antt. It is computed over
// the whole band, which takes long, so it stands apart from the register's code. There is no code here.
#![tactic(auto)]
