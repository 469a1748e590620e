// What a job answers, and demand 3.

#![tactic(auto)]
