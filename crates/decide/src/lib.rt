#![tactic(auto)]

// No code: what it means that an answer of true or false decides a statement, the choice by a test, and the laws of both stand in specs/ and proofs/.
