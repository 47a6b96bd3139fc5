// Newick text: its form, the place where a text is refused, and the scan that decides them, with their laws. There is no code here.
#![tactic(auto)]
