// A set of jobs fits exactly when some schedule meets all deadlines, as theorems over the definitions: specs/Feasible.antt. There is no code here.
#![tactic(auto)]
