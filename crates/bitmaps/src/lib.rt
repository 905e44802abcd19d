// What the calls of bitmap make of a set, and what is promised of them. There is no code here.
#![tactic(auto)]
