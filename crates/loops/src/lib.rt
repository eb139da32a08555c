// Laws about loops, slices and tables, for every crate above: nothing runs here.
#![tactic(auto)]
