// How many carriers of a segment have each role, counted over every row of the tables and every phase:
// specs/CountedRoles.antt. That is computed, which takes long, so it stands apart from the code. There is no code here.
#![tactic(auto)]
