// Face steps of an octree: each leaf's steps pair up, and over all leaves they balance. Uses base, rules, octree.
#![tactic(auto)]
