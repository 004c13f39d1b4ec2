// The examples that take long to compute: the starred surveys of document 01 as one list, drawings of larger trees, divided edges, volumes said by hand.
// Uses base and rules. No code; proofs/ has the lists. What is quick stands in rules/proofs, where each wrong rule pays for it.
#![tactic(auto)]
