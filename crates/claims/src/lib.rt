// What is claimed of the base as a whole, in specs/: document 01's checks K1 to K12, and one outcome for each call. No code.

#![tactic(auto)]
