// What the loads of intervals say of a plan, and filling given loads anew: definitions and laws. There is no code here.
#![tactic(auto)]
