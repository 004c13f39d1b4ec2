// Laws of binary floating point: a bound on an exact result that is a value of the format is a bound on the rounded one.
// Uses nothing of the project. No code; the crates above cite proofs/.
#![tactic(auto)]
