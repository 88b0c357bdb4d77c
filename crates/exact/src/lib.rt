// Theory alone: see specs/.

#![tactic(auto)]
