// No code: the statement on two hosts and idle calls are in specs/, the proof in proofs/.
#![tactic(auto)]
