//! What a heap holds: live blocks of words, each with how often it is pinned; what each change of them leaves.
#![tactic(auto)]
