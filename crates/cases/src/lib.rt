// Worked examples of the defined run, computed, and what does not meet the definition: nothing runs here.
#![tactic(auto)]
