// The starred cases of document 01, in specs/ and proofs/. There is no code here.
#![tactic(auto)]
