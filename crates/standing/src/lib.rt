#![tactic(auto)]

// No code: what stands between two calls, and what each call makes of it, stands in specs/, that the calls leave it in proofs/.
