// The rules of paper 01 on lists: definitions and theorems.
#![tactic(auto)]
