// The contracts of the code, the C functions, the lines of `trial` and what `shelf` prints, tied to the demands. There is no code here.
#![tactic(auto)]
