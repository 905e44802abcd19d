// What is asked of the writer, what it answers and leaves, and the plain sheet beside it: definitions and what is promised of them. There is no code here.
#![tactic(auto)]
