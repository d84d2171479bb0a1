#![tactic(auto)]

// No code: the letter's three demands of the public calls stand in specs/, their proofs in proofs/.
