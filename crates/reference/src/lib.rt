// The reference points of the scope: a table, and one theorem over its rows. Laws alone, no code.
#![tactic(auto)]
