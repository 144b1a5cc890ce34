// Theorems about a whole trip: a request that the driver lays, the device takes, and whose answer the driver reads. No code.
#![tactic(auto)]
