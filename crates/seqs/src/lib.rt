// Laws on lists that every layer uses, in specs/. No code.

#![tactic(auto)]
