// Editing other layers does not move a lesson: a theorem over the contracts of the calls, no code.
#![tactic(auto)]
