// The worked examples of documents 01 and 03, as theorems about the model. No code.
#![tactic(auto)]
