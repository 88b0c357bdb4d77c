// Theory alone: following a function from place to place, with marks. See specs/.

#![tactic(auto)]
