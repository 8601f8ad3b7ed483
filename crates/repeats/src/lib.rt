// Rounds that repeat, as theorems over the definitions: specs/RoundsThatRepeat.antt. There is no code here.
#![tactic(auto)]
