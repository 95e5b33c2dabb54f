// The marked cases of document 01, as one table under one claim. There is no code here.
#![tactic(auto)]
