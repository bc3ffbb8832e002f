// Exact bounds and cells: what is true of ranges over any ordered numbers. It has definitions and laws, and no code.
#![tactic(auto)]
