// Counting a run's points inside a window by digit strips: one more digit of an axis splits a class of the run's steps, and the digit's image
// against the digits of the window's ends says inside, outside or deeper. Definitions and laws alone, no code.
#![tactic(auto)]
