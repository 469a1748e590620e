// The text of each kept match.

#![tactic(auto)]
