// Right programs on scenarios that stand on promises alone: wrong ones are tried in their place.
#![tactic(auto)]

mod right;
