// What a change sheet is and means in any edition, and its reader there: definitions and what is promised of them. There is no code here.
#![tactic(auto)]
