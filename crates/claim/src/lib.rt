// Demand 3 at the entry points for C: statements about what their contracts say, and no function.
#![tactic(auto)]
