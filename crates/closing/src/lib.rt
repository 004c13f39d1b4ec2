// The closing theorem: the drawing of every survey that is drawn closes, whatever the splitting of cells and the soundings. Demand 3 of the request, about the
// surface that document 01's rules define. Uses base, rules, octree, geometry. No code; the crates above cite proofs/Closing.antt.
#![tactic(auto)]
