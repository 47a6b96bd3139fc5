// Definitions only: what a contract says of any call.
#![tactic(auto)]
