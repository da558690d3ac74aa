// No stitch longer than asked (request [12]): in specs/. No code.

#![tactic(auto)]
