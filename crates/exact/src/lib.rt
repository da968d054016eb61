// Numbers without rounding, and how a rounded formula follows them: definitions and their laws, so there is no
// code here.
#![tactic(auto)]
