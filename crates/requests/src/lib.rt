// Theorems about whole requests: what the steps add up to. No code.
#![tactic(auto)]
