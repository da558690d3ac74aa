// Numbers, as definitions and theorems in specs/: what the leaves are, that IEEE 754 asks just that, and the laws that callers use. No code.

#![tactic(auto)]
