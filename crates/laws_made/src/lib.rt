//! What a generated changelog does: laws, and no code.
#![tactic(auto)]
