// No code: the first rules, and the statement that a converted study forecasts by them.
#![tactic(auto)]
