// Specifications only: what document 01 and the SPIR-V Specification say, and theorems about it. No code.
#![tactic(auto)]
