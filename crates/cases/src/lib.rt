// The starred cases as one list: laws only, and no code.
#![tactic(auto)]
