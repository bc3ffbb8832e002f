// What the definitions compute, in digests that the second program prints too. It has definitions and laws, and no code.
#![tactic(auto)]
