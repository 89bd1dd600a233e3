// Claims about the definitions alone: a list of walks from the built index. There is no code here.
#![tactic(auto)]
