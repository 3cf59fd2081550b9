//! What expressions are evaluated in, what statements do, and processes as the kernel runs them: definitions that contracts cite.
#![tactic(auto)]
