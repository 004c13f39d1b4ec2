// Laws of an accepted survey: its cells are an octree, its corners are listed once each and in order, its points are numbered without gap or
// repeat. Uses base and rules. No code; the crates above cite proofs/.
#![tactic(auto)]
