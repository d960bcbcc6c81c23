// Right programs on slots and runs that stand on promises alone: wrong ones are tried in their place.
#![tactic(auto)]

mod right;
