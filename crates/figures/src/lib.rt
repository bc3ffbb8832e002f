// The bench figures as theorems of the definitions. It has definitions and laws, and no code.
#![tactic(auto)]
