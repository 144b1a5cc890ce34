// Theorems about every sequence of calls, and nothing else. No code.
#![tactic(auto)]
