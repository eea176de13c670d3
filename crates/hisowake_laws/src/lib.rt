// The C calls answer what the sampler's calls answer. Laws alone, no code.
#![tactic(auto)]
