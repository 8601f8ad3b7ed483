// What is to be placed, and what placed shares and the prices that fit them are: definitions and laws for the crates that place.
// There is no code here.
#![tactic(auto)]
