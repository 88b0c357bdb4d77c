// Theory alone: the examples that document 01 marks as proved, one list under one claim. See specs/.

#![tactic(auto)]
