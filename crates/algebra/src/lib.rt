// Definitions and laws only: they are in specs/.
#![tactic(auto)]
