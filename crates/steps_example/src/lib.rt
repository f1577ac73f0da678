// Steps of studies worked out by the definitions of the step rules; no code of its own.
#![tactic(auto)]
