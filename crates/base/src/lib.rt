// Laws of lists, sums and slices, for every crate above. Knows nothing of surveys; uses nothing.
#![tactic(auto)]
