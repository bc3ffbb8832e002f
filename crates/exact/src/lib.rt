// Exact numbers: whole numbers, fractions of them and their laws. It has definitions and laws, and no code.
#![tactic(auto)]
