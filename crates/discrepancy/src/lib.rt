// How evenly a run of Halton points fills a window, demand 3's bound, and the slots of an axis. Laws alone, no code.
#![tactic(auto)]
