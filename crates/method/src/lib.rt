#![tactic(auto)]

// The method has no code: its definitions stand in specs/, its theorems in proofs/.
