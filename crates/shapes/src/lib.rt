// What the calls of shape make of a set, and what is promised of them. There is no code here.
#![tactic(auto)]
