// No code: laws on definitions of the crates below, on counts of 64 bits and on the seconds of a line, which no proof cites.
#![tactic(auto)]
