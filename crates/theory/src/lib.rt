// The theory of share-outs: it has no code, only definitions and what is proved of them.
#![tactic(auto)]
