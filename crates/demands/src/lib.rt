// The user's three demands as theorems over the operations' contracts: specs/ThreeDemands.antt. There is no code here.
#![tactic(auto)]
